use fault::layer::Layer;
use fault::place::Place;
use sharing::paid::share_out;
use sharing::remainders::Remainders;
use sharing::rule::Sharing;
use sharing::running::Running;
use std::process::Abort;
use std::test::Fail;

struct Case {
    total: u32,
    weights: &'static [u32],
    remainders: [u32; 4],
    running: [u32; 4],
}

// The fourth entry of each place is beyond the list and keeps its content.
const CASES: [Case; 5] = [
    Case {
        total: 2,
        weights: &[1, 1, 1],
        remainders: [1, 1, 0, 9],
        running: [0, 1, 1, 9],
    },
    Case {
        total: 161,
        weights: &[5000, 4000, 6000],
        remainders: [54, 43, 64, 9],
        running: [53, 43, 65, 9],
    },
    Case {
        total: 0,
        weights: &[0, 0],
        remainders: [0, 0, 9, 9],
        running: [0, 0, 9, 9],
    },
    Case {
        total: 100_000_000,
        weights: &[99_999_999, 1],
        remainders: [99_999_999, 1, 9, 9],
        running: [99_999_999, 1, 9, 9],
    },
    Case {
        total: 0,
        weights: &[],
        remainders: [9, 9, 9, 9],
        running: [9, 9, 9, 9],
    },
];

fn shared<R: Sharing>(rule: &R, total: u32, weights: &[u32]) -> Result<[u32; 4], Fail> {
    let mut place = [9; 4];
    rule.share(total, weights, &mut place)?;
    Ok(place)
}

#[test]
fn shares(rt: HostRuntime) -> Result<(), Fail> {
    for case in &CASES {
        assert_eq!(rt;
            shared(&Remainders, case.total, case.weights)?,
            case.remainders
        );
        assert_eq!(rt; shared(&Running, case.total, case.weights)?, case.running);
    }
    Ok(())
}

// What a refusal carries; None where the sharing is accepted.
fn refusal<R: Sharing>(
    rule: &R,
    total: u32,
    weights: &[u32],
    place: &mut [u32],
) -> Option<(u8, Layer, Place)> {
    let fault = rule.share(total, weights, place).err()?;
    Some((fault.number(), fault.layer, fault.place))
}

fn check_refused<R: Sharing>(
    rt: &impl Abort,
    rule: &R,
    number: u8,
    total: u32,
    weights: &[u32],
    room: usize,
) {
    let mut held = [7; 300];
    assert!(rt; room <= 300);
    assert_eq!(rt;
        refusal(rule, total, weights, &mut held[..room]),
        Some((number, Layer::Sharing, Place::Nowhere))
    );
    assert_eq!(rt; held, [7; 300], "a refusal leaves the place");
}

fn check_both(rt: &impl Abort, number: u8, total: u32, weights: &[u32], room: usize) {
    check_refused(rt, &Remainders, number, total, weights, room);
    check_refused(rt, &Running, number, total, weights, room);
}

#[test]
fn refusals_in_order(rt: HostRuntime) {
    // 41 before 42 before 43.
    check_both(&rt, 41, 100_000_001, &[0, 0], 1);
    check_both(&rt, 42, 100_000_001, &[0, 0], 2);
    check_both(&rt, 43, 100_000_000, &[0, 0], 2);
    check_both(&rt, 43, 1, &[], 0);
}

#[test]
fn largest_sums(rt: HostRuntime) {
    check_both(&rt, 42, 1, &[99_999_999, 2], 2);
    // In 32 bits these weights would add up to 1.
    check_both(&rt, 42, 1, &[u32::MAX, 2], 2);
}

#[test]
fn claimants_to_256(rt: HostRuntime) {
    let ones = [1; 257];
    check_both(&rt, 42, 1, &ones, 257);
    let mut place = [7; 257];
    assert_eq!(rt; refusal(&Remainders, 255, &ones[..256], &mut place), None);
    assert_eq!(rt; place[254], 1);
    assert_eq!(rt; place[255], 0);
    assert_eq!(rt; place[256], 7);
}

#[test]
fn paid_is_the_total(rt: HostRuntime) {
    let mut place = [0; 3];
    assert_eq!(rt;
        share_out(&Running, 161, &[5000, 4000, 6000], &mut place),
        Ok(161)
    );
    assert_eq!(rt; place, [53, 43, 65]);
}

#[test]
fn titles(rt: HostRuntime) {
    assert_eq!(rt; Remainders.title(), "remainders");
    assert_eq!(rt; Running.title(), "running");
}
