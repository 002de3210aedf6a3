use crate::Table;

#[test]
fn filled_is_cut_to_the_room(rt: HostRuntime) {
    let t: Table<u8, 3> = Table::filled(7, 5);
    assert!(rt; t.as_slice() == [7, 7, 7].as_slice());
    let none: Table<u8, 0> = Table::filled(7, 5);
    assert_eq!(rt; none.len(), 0);
}

#[test]
fn push_stops_at_the_room(rt: HostRuntime) {
    let mut t: Table<u8, 2> = Table::filled(7, 1);
    assert_eq!(rt; t.push(8), Ok(()));
    assert_eq!(rt; t.push(9), Err(9));
    assert!(rt; t.as_slice() == [7, 8].as_slice());
}

#[test]
fn past_the_end_nothing_is_written(rt: HostRuntime) {
    let mut t: Table<u8, 4> = Table::filled(7, 2);
    assert!(rt; t.set(1, 8));
    assert!(rt; !t.set(2, 9));
    assert!(rt; t.as_slice() == [7, 8].as_slice());
}

#[test]
fn copy_takes_the_length_too(rt: HostRuntime) {
    let short: Table<u8, 4> = Table::filled(1, 1);
    let mut t: Table<u8, 4> = Table::filled(7, 3);
    t.copy_from(&short);
    assert!(rt; t.as_slice() == [1].as_slice());
}
