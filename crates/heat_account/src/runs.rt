// A whole list of calls on a newly opened account.
ghost use Rattle.std.specs.Prelude.{◌≡◌, slice_set};
ghost use Rattle.heat_account.specs.Judged.{answer, performed};
ghost use Rattle.heat_account.specs.Ledger.{empty, answers_from};
ghost use Rattle.heat_account.specs.Carried.{Goes, overlaid};

use crate::Account;
use crate::answer::Answer;
use crate::call::Call;
use fault::refusal::Fault;
use house::House;
use sharing::rule::Sharing;

impl<R: Sharing> Account<R> {
    // Makes one call, and writes its answer to the place if there is room.
    fn perform_into(&mut self, call: Call, answers: &mut [Result<Answer, Fault>], i: usize)
        ensures answer { answers.new ≡ slice_set answers.old i (answer self.old.house self.old.state call) }
        ensures after { self.new ≡ performed (R.shares self.old.rule) self.old call }
    {
        let answer = self.perform(call);
        if i < answers.len() {
            answers[i] = answer;
        }
    }
}

// Opens a house's account and performs the calls. The answers go to the front of the place, as many as it takes.
// The place is the caller's: the number of calls has no bound, and no memory is asked for.
pub fn run<R: Sharing>(
    house: House,
    rule: R,
    calls: &[Call],
    answers: &mut [Result<Answer, Fault>],
) -> Account<R>
    ensures house { result.house ≡ house }
    ensures rule { result.rule ≡ rule }
    ensures ledger { Goes (R.shares rule) house result.state calls.now }
    ensures answers { answers.new ≡ overlaid (answers_from (R.shares rule) house (empty house) calls.now) answers.old }
{
    let mut account = Account::open(house, rule);
    // By index: once what `iter_mut` or `get_mut` lent is written, a proof knows nothing of the slice.
    for (i, call) in calls.iter().enumerate() {
        account.perform_into(*call, answers, i);
    }
    account
}
