//! The ends of queues, over several rounds.

use nvme_ring::{CqHead, CqTail, SqHead, SqTail};

#[test]
fn a_tail_doorbell_moves_on_and_back(rt: HostRuntime) {
    let mut head = SqHead::new(8);
    assert!(rt; head.set_doorbell(3));
    for fetched in 0..3 {
        assert_eq!(rt; (head.waiting(), head.slot()), (3 - fetched, fetched));
        head.advance();
    }
    assert_eq!(rt; head.slot(), 3);
    for (doorbell, is_taken, waiting) in [(5, true, 2), (4, true, 1), (2, true, 7), (8, false, 7)] {
        assert_eq!(rt;
            (head.set_doorbell(doorbell), head.waiting()),
            (is_taken, waiting)
        );
    }
}

#[test]
fn a_completion_queue_of_two_takes_one_completion_at_a_time(rt: HostRuntime) {
    let mut tail = CqTail::new(2);
    for (slot, next) in [(0, 1), (1, 0)] {
        assert_eq!(rt; (tail.room(), tail.slot(), tail.phase()), (1, slot, true));
        tail.advance();
        assert_eq!(rt; tail.room(), 0);
        assert!(rt; !tail.set_doorbell(2));
        assert_eq!(rt; tail.room(), 0);
        assert!(rt; tail.set_doorbell(next));
    }
    assert_eq!(rt; (tail.room(), tail.slot(), tail.phase()), (1, 0, false));
}

#[test]
fn a_host_puts_what_it_has_room_for(rt: HostRuntime) {
    let mut tail = SqTail::new(8);
    for put in 0..7 {
        assert_eq!(rt; (tail.room(), tail.slot()), (7 - put, put));
        tail.advance();
    }
    assert_eq!(rt; tail.room(), 0);
    assert_eq!(rt; (tail.hear(3), tail.room()), (true, 3));
    // One before the last accepted head, one after the tail, and one that is not a slot.
    assert_eq!(rt; [tail.hear(2), tail.hear(0), tail.hear(8)], [false; 3]);
    assert_eq!(rt; tail.room(), 3);
    tail.advance();
    assert_eq!(rt; (tail.slot(), tail.hear(0), tail.room()), (0, true, 7));
}

#[test]
fn a_host_waits_for_the_other_phase_on_the_next_turn(rt: HostRuntime) {
    let mut head = CqHead::new(3);
    let expected = [
        (0, true),
        (1, true),
        (2, true),
        (0, false),
        (1, false),
        (2, false),
        (0, true),
    ];
    for (slot, phase) in expected {
        assert_eq!(rt; head.slot(), slot);
        assert_eq!(rt; head.phase(), phase);
        head.advance();
    }
}
