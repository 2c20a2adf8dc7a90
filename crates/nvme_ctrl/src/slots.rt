//! The queues of a controller, each at the place of its identifier.

ghost use Rattle.std.specs.Prelude.{◌≡◌, [], ◌∷◌, None, slice_index_or, slice_set};

/// No queues.
pub fn none<Q: Copy>() -> [Option<Q>; 5]
    ensures { result ≡ None ∷ None ∷ None ∷ None ∷ None ∷ [] }
{
    [None, None, None, None, None]
}

/// The queue with an identifier, if there is one.
pub fn queue_at<Q: Copy>(queues: &[Option<Q>; 5], qid: u16) -> Option<Q>
    ensures { result ≡ slice_index_or queues.now qid None }
{
    match queues.get(usize::from(qid)) {
        Some(queue) => *queue,
        None => None,
    }
}

/// Puts a queue, or none, at the place of an identifier. If no queue can have that identifier, nothing changes.
pub fn put<Q: Copy>(queues: &mut [Option<Q>; 5], qid: u16, queue: Option<Q>)
    ensures { queues.new ≡ slice_set queues.old qid queue }
{
    if usize::from(qid) < queues.len() {
        queues[usize::from(qid)] = queue;
    }
}
