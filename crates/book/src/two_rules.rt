// Two rules of different types on one book.
ghost use Rattle.tariff.specs.Answers.{told};
ghost use Rattle.book.specs.LentPages.{heavy_change, light_change, SameLenders};
ghost use Rattle.book.specs.RuleMoves.{SameRule};
ghost use Rattle.book.specs.TwoCalls.{OneAfterAnother};

use crate::book::Book;
use crate::entry::Entry;
use crate::statement::Statement;
use tariff::division::DivisionRule;
use tariff::refusal::Refusal;
use tariff::source::PriceSource;

// Makes two calls, each by a rule of its own.
pub fn by_two_rules<S: PriceSource, A: DivisionRule, B: DivisionRule>(
    book: &mut Book,
    first: Entry,
    second: Entry,
    source: &S,
    rule: &mut A,
    other: &mut B,
    statement: &mut Statement<'_, '_, '_, '_>,
) -> (Result<(), Refusal>, Result<(), Refusal>)
    ensures calls { OneAfterAnother
        (record {
          entry = first;
          tables = S.tables source.now;
          most = A.LIMIT;
          moves = A.moves;
          first = A.meaning rule.old;
          last = A.meaning rule.new;
          answered = told result.0;
        })
        (record {
          entry = second;
          tables = S.tables source.now;
          most = B.LIMIT;
          moves = B.moves;
          first = B.meaning other.old;
          last = B.meaning other.new;
          answered = told result.1;
        })
        book.old (heavy_change statement.old statement.new) (light_change statement.old statement.new) book.new }
    ensures lenders { SameLenders statement.old statement.new }
    ensures same_rule { SameRule first (told result.0) rule.old rule.new }
    ensures same_other { SameRule second (told result.1) other.old other.new }
{
    let told = book.enter(first, source, rule, statement);
    (told, book.enter(second, source, other, statement))
}
