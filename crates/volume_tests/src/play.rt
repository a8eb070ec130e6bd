//! Scripts that threads play at the same time.
use crate::fixtures::{copied, new_bytes, stream, taken};
use crate::meeting::Meeting;
use command_terms::PlayForm;
use std::rt::HostRuntime;
use std::thread;
use vol_check::Gate;
use vol_layout::Edition;
use vol_play::play;

/// A script that makes a file.
const CREATE: &[u8] = b"5 0 0 create /a 644\n";

/// The report if the first of two scripts makes that file.
const FIRST: &[u8] = b"1.1 ok 32\n2.1 17 Exists\nrecords 1\nconfirmed 2\n";

/// The report if the second does.
const SECOND: &[u8] = b"1.1 17 Exists\n2.1 ok 32\nrecords 1\nconfirmed 2\n";

/// The number of turns for which one of two scripts is held.
const TURNS: u32 = 20_000_000;

/// Holds two scripts until both are at the gate, and then one until the other is done.
#[derive(Drop)]
struct Holding {
    meeting: Meeting,
    held: u64,
}

impl Gate for Holding {
    fn before(&self, piece: u64) {
        self.meeting.before(piece);
        if piece != self.held {
            return;
        }
        for _ in 0..TURNS {
            if self.meeting.left() != 0 {
                return;
            }
            thread::yield_now();
        }
    }

    fn after(&self, piece: u64) {
        self.meeting.after(piece);
    }
}

#[test]
fn two_scripts_have_threads_and_no_line_is_played_before_its_gate(rt: HostRuntime) {
    // If a script began before its gate, both runs would make the file in the same order.
    for (held, text) in [(0, SECOND), (1, FIRST)] {
        let alloc = rt.alloc();
        let gate = Holding {
            meeting: Meeting::of(2),
            held,
        };
        let scripts = [copied(&rt, alloc, CREATE), copied(&rt, alloc, CREATE)];
        let scripts = Vec::from_array(alloc, scripts).expect(&rt, "memory for the scripts");
        let mut output = stream(alloc);
        let mut errors = stream(alloc);
        let answer = play(
            &rt,
            alloc,
            Edition::V6,
            new_bytes(&rt, alloc, Edition::V6),
            scripts,
            false,
            PlayForm::Lines { trace: false },
            &gate,
            &mut output,
            &mut errors,
        );
        assert_eq!(rt; gate.meeting.missed(), 0);
        assert_eq!(rt; gate.meeting.left(), 2);
        assert_eq!(rt; taken(output).as_slice(), text);
        assert_eq!(rt; taken(errors).as_slice(), b"".as_slice());
        assert_eq!(rt; answer.status, 1);
    }
}
