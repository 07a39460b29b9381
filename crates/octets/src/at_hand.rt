// Whether the bytes that a length states are at hand. A message's header and an AVP's ask the same.
ghost use Rattle.std.specs.Prelude.{◌≡◌};
ghost use Rattle.octets.specs.AtHand.{available_of};

/// So many of the bytes that a length states are absent.
#[derive(Clone, Copy, Debug, PartialEq, Eq)]
pub struct Absent(pub usize);

/// Whether the bytes of a length are at hand. The length comes first: with the numbers exchanged it would say how many are left over.
/// The bytes that were read before the length count in both.
pub fn length(length: usize, available: usize) -> Result<(), Absent>
    ensures { result ≡ available_of length available }
{
    if available < length {
        return Err(Absent(length - available));
    }
    Ok(())
}
