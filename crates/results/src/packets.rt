// The answers of RADIUS as numbers.
ghost use Rattle.std.specs.Prelude.{◌≡◌};
ghost use Rattle.refusal.specs.Answer.{answer_of};
ghost use Rattle.results.specs.Packets.{result_of, counts_of, refusal, written_result};

use radius::Packet;
use refusal::Refusal;

/// How many numbers a packet's result has. include/tandrekily.h names them.
pub const RESULT: usize = 8;

const NO_PACKET: Packet = Packet {
    code: 0,
    identifier: 0,
    errors: 0,
    records: 0,
    tried: 0,
    length: 0,
};

/// An answer's number and amount, and behind them a packet's numbers.
pub fn lay(number: u64, amount: usize, p: Packet) -> [u64; RESULT]
    ensures { result ≡ result_of number amount (counts_of p) p.code p.identifier }
{
    [
        number,
        amount as u64,
        p.errors as u64,
        p.records as u64,
        p.tried as u64,
        p.length as u64,
        p.code as u64,
        p.identifier as u64,
    ]
}

/// The refusal of a packet.
pub fn refused(why: Refusal) -> [u64; RESULT]
    ensures { result ≡ refusal why }
{
    lay(why.number() as u64, why.amount(), NO_PACKET)
}

/// What writing a packet answers: its total is the length.
pub fn of_written(w: Result<usize, Refusal>) -> [u64; RESULT]
    ensures { result ≡ written_result (answer_of w) }
{
    match w {
        Ok(total) => {
            let written = Packet {
                length: total,
                ..NO_PACKET
            };
            lay(0, 0, written)
        }
        Err(why) => refused(why),
    }
}
