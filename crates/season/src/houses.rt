// The houses that the tests keep, and what their accounts tell.
use fault::refusal::Fault;
use heat_account::Account;
use house::House;
use house::method::Method;
use house::room::{Kind, Room};
use sharing::remainders::Remainders;

pub(crate) const SEVEN: Method = Method::Remainder { common_area: 3000 };

// Rooms go by kind and area, and are numbered from 1.
pub(crate) const SEVEN_ROOMS: [(Kind, u32); 3] = [
    (Kind::Metered, 5000),
    (Kind::Metered, 4000),
    (Kind::Plain, 6000),
];

pub(crate) fn build(house: u32, method: Method, rooms: &[(Kind, u32)]) -> Result<House, Fault> {
    let mut built = House::new();
    let mut numbered = (1..).zip(rooms).map(|(number, (kind, area))| Room {
        number,
        area: *area,
        kind: *kind,
    });
    if let Some(first) = numbered.next() {
        built.begin(house, method, first)?;
    }
    for room in numbered {
        built.add(room)?;
    }
    Ok(built)
}

pub(crate) fn open(
    number: u32,
    method: Method,
    rooms: &[(Kind, u32)],
) -> Result<Account<Remainders>, Fault> {
    Ok(Account::open(build(number, method, rooms)?, Remainders))
}

// House 7 with room 1 read and one period closed.
pub(crate) fn seven_closed() -> Result<Account<Remainders>, Fault> {
    let mut account = open(7, SEVEN, &SEVEN_ROOMS)?;
    account.read(1, 300)?;
    account.close(1000, None)?;
    Ok(account)
}

// What the first three rooms are billed and owe.
#[derive(Clone, Copy, PartialEq, Eq, Debug)]
pub(crate) struct Figures {
    pub(crate) bills: [(u32, u32); 3],
    pub(crate) balances: [u64; 3],
}

// What is told of each of the first three rooms. `sample` has the same: what takes a closure cannot be public.
pub(crate) fn of_each_room<T: Copy + Default, F: Fn(u32) -> Result<T, Fault>>(
    figure: F,
) -> Result<[T; 3], Fault>
    requires { F.IsAlwaysCallable figure }
{
    let mut figures = [T::default(); 3];
    for (room, place) in (1..).zip(&mut figures) {
        *place = figure(room)?;
    }
    Ok(figures)
}

pub(crate) fn figures_of(account: &Account<Remainders>) -> Result<Figures, Fault> {
    Ok(Figures {
        bills: of_each_room(|room| account.bill(room))?,
        balances: of_each_room(|room| account.balance(room))?,
    })
}
