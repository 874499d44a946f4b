// A list of calls of a book.
ghost use Rattle.std.specs.Prelude.{◌≡◌, ◌≢◌, IfOk};
ghost use Rattle.tally.specs.States.{set_up_answer, set_up_of};
ghost use Rattle.tariff.specs.Answers.{told, granted};
ghost use Rattle.book.specs.Playing.{Played};

use crate::book::Book;
use crate::call::Call;
use tariff::division::DivisionRule;
use tariff::refusal::Refusal;
use tariff::source::PriceSource;

// Sets a book up and makes each call of a list, in order.
pub fn play<S: PriceSource, R: DivisionRule>(
    parties: i64,
    full_rate: i64,
    step_rate: i64,
    calls: &mut [Call<S, R>],
) -> Result<Book, Refusal>
    ensures answer { told result ≡ set_up_answer parties full_rate step_rate }
    ensures refused { told result ≢ granted → calls.new ≡ calls.old }
    ensures played { IfOk result
        (Played S.tables R.LIMIT R.moves R.meaning (set_up_of parties full_rate step_rate) calls.old calls.new) }
{
    let mut book = Book::new(parties, full_rate, step_rate)?;
    for call in calls.iter_mut() {
        call.make(&mut book);
    }
    Ok(book)
}
