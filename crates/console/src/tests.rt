use crate::season::keep_season;
use std::test::Fail;

const INPUT: &[u8] = b"(house 7 (remainder 3000))
(room 1 (metered 5000))
(room 2 (metered 4000))
(room 3 (plain 6000))

(read 1 300)
(close 1000)
(correct 2 200 book)
(balance)
";

const OUTPUT: &[u8] = b"(rule remainders)
(done)
(bill 1 300 54)
(bill 2 216 43)
(bill 3 323 64)
(sum 1000)
(change 1 1)
(change 2 -15)
(change 3 14)
(balance 1 355)
(balance 2 244)
(balance 3 401)
(sum 1000)
";

#[test]
fn a_season_from_bytes_to_bytes(rt: HostRuntime) -> Result<(), Fail> {
    let mut out = Vec::new(rt.alloc());
    keep_season(rt.alloc(), INPUT, &mut out)?;
    assert!(rt; out.as_slice() == OUTPUT);
    Ok(())
}

#[test]
fn a_byte_too_many_is_refused(rt: HostRuntime) -> Result<(), Fail> {
    let mut out = Vec::new(rt.alloc());
    let input = vec![in rt.alloc(); b'\n'; 65_537]?;
    keep_season(rt.alloc(), input.as_slice(), &mut out)?;
    assert!(rt; out.as_slice() == b"(refused 52 0 0)\n".as_slice());
    Ok(())
}
