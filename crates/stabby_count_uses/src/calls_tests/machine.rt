//! What no clause says: worked lists of steps, with answers from outside.
use stabby_count::{HandleMachine, Reply, Step, ValueState};

const STEPS: [Step; 7] = [
    Step::Clone,
    Step::Downgrade,
    Step::Upgrade,
    Step::EndStrong,
    Step::EndWeak,
    Step::Look,
    Step::Take,
];

#[test]
fn machine_steps(rt: HostRuntime) {
    let mut machine = HandleMachine::new();
    assert_eq!(rt; machine.word(), 4294967297);
    let worked = [
        (Step::Downgrade, Reply::Done),
        (Step::EndStrong, Reply::Last),
        (Step::Upgrade, Reply::Gone),
        (Step::EndWeak, Reply::Done),
        (Step::Take, Reply::Freed),
        (Step::Take, Reply::NotHeld),
    ];
    for (step, reply) in worked {
        assert_eq!(rt; machine.step(step), reply);
    }
    assert_eq!(rt; machine.word(), 0);
    assert_eq!(rt; machine.value(), ValueState::Released);
    assert!(rt; !machine.due());
    assert_eq!(rt; machine.strong() + machine.weak(), 0);
}

fn answers(worked: &[(Step, Reply)]) -> bool {
    let mut machine = HandleMachine::new();
    for (step, reply) in worked {
        if machine.step(*step) != *reply {
            return false;
        }
    }
    true
}

// Steps without their handle, and ends in another order.
#[test]
fn machine_at_odd_steps(rt: HostRuntime) {
    assert!(rt;
        answers(&[
            (Step::EndStrong, Reply::Last),
            (Step::Upgrade, Reply::NotHeld),
            (Step::Take, Reply::Freed),
            (Step::Look, Reply::NotHeld)
        ])
    );
    assert!(rt;
        answers(&[
            (Step::Downgrade, Reply::Done),
            (Step::Downgrade, Reply::Done),
            (Step::Upgrade, Reply::Done),
            (Step::EndStrong, Reply::Done),
            (Step::EndStrong, Reply::Last),
            (Step::EndWeak, Reply::Done),
            (Step::Take, Reply::Done),
            (Step::EndWeak, Reply::Freed)
        ])
    );
    let counts = Reply::Counts { strong: 2, weak: 1 };
    assert!(rt;
        answers(&[
            (Step::Clone, Reply::Done),
            (Step::Take, Reply::NotHeld),
            (Step::Look, counts)
        ])
    );
}

fn mixed(digest: u64, number: u64) -> u64 {
    digest.wrapping_mul(1099511628211).wrapping_add(number)
}

fn mixed_with_reply(digest: u64, reply: Reply) -> u64 {
    match reply {
        Reply::Done => mixed(digest, 0),
        Reply::Last => mixed(digest, 1),
        Reply::Freed => mixed(digest, 2),
        Reply::Full => mixed(digest, 3),
        Reply::Gone => mixed(digest, 4),
        Reply::Counts { strong, weak } => mixed(mixed(mixed(digest, 5), strong), weak),
        Reply::NotHeld => mixed(digest, 6),
    }
}

fn value_number(value: ValueState) -> u64 {
    match value {
        ValueState::Live => 0,
        ValueState::Taken => 1,
        ValueState::Released => 2,
    }
}

// Runs the list of steps that `number` spells, `places` being the weights of its digits in base 7.
fn run_list(digest: u64, number: usize, places: &[usize]) -> u64 {
    let mut digest = digest;
    let mut machine = HandleMachine::new();
    for &place in places {
        let Some(digit) = number.checked_div(place) else {
            return 0;
        };
        digest = mixed_with_reply(digest, machine.step(STEPS[digit % 7]));
        digest = mixed(digest, machine.word());
        digest = mixed(digest, value_number(machine.value()));
    }
    digest
}

fn run_lists(lists: usize, places: &[usize]) -> u64 {
    let mut digest = 0;
    for number in 0..lists {
        digest = run_list(digest, number, places);
    }
    digest
}

// The digests that `oracle/machine_lists.py` prints.
#[test]
fn every_short_list_of_steps(rt: HostRuntime) {
    let expected: [(usize, &[usize], u64); 7] = [
        (1, &[], 0),
        (7, &[1], 17308102276813952272),
        (49, &[7, 1], 14670090852660014599),
        (343, &[49, 7, 1], 18278337753737688331),
        (2401, &[343, 49, 7, 1], 7721319006045051800),
        (16807, &[2401, 343, 49, 7, 1], 17986428249680593502),
        (117649, &[16807, 2401, 343, 49, 7, 1], 1061670150375254722),
    ];
    for (lists, places, digest) in expected {
        assert_eq!(rt; run_lists(lists, places), digest, "{lists} lists");
    }
}
