//! A namespace's blocks on the medium.

ghost use Rattle.std.specs.Prelude.{◌≡◌, ◌+◌, ◌≤◌, IfSome, Some};
ghost use Rattle.nvme_subsys.specs.Looking.{block_in as spec_block};

use nvme_ns::Namespace;

/// The first of `count` blocks of a namespace from `slba`, counted on the medium of `size` blocks, if the namespace has
/// all of them.
pub fn block_in(namespace: &Namespace, slba: u64, count: u64, size: u64) -> Option<u64>
    requires within { namespace.now.first + namespace.now.blocks ≤ size }
    ensures first { result ≡ spec_block (Some namespace.now) slba count }
    ensures within { IfSome result (λ first. first + count ≤ size) }
{
    let blocks = namespace.blocks();
    if slba > blocks || count > blocks - slba {
        return None;
    }
    Some(namespace.first_block() + slba)
}
