// What the writer answers (docs/FORMAT.md, 8.3), before a byte is written: whether the table keeps the rules, and its
// message fits. This crate looks at the table and at numbers: it knows how many bytes there are to point into and to
// write over, and none of them.
#![tactic(auto)]

ghost use Rattle.refusal.specs.Answer.{answer_of};
ghost use Rattle.writable.specs.Answers.{AnswerFor};

use header::Header;
use record::Record;
use refusal::Refusal;

// The command code and the message's length are numbers of 24 bits.
const MOST_CODE: u32 = 0xFF_FFFF;

const MOST_LENGTH: usize = 0xFF_FFFF;

/// The size of a table's message or its refusal, whatever the header's other fields are, and the bytes that are there.
pub fn answer(code: u32, table: &[u8], available: usize, room: usize) -> Result<usize, Refusal>
    ensures { AnswerFor code table.now available room (answer_of result) }
{
    if MOST_CODE < code {
        return Err(Refusal::BadHeader);
    }
    let size = rules::check(table, available)?;
    if table.len() % Record::SIZE != 0 {
        return Err(Refusal::BadTable(table.len() / Record::SIZE));
    }
    if MOST_LENGTH - Header::SIZE < size {
        return Err(Refusal::TooLong);
    }
    let total = Header::SIZE + size;
    if room < total {
        return Err(Refusal::NoRoom(total));
    }
    Ok(total)
}
