// What an AVP has behind its header, as the writer puts it: the data, and the padding.
// This crate knows bytes alone, and puts no more of them than there is room for.
#![tactic(auto)]

ghost use Rattle.std.specs.Prelude.{◌≡◌, length, take};
ghost use Rattle.octets.specs.Octets.{octets, over, put_all};

/// Puts `src` over the front of `dst`, where there is room for all of it. Data of four bytes, as most numbers have, are
/// one word.
#[tactic(auto, unfolding(octets::specs::Octets::over, octets::specs::Octets::put_all))]
pub fn copy(src: &[u8], dst: &mut [u8])
    ensures { dst.new ≡ put_all src.now dst.old }
{
    if dst.len() < src.len() {
        return;
    }
    if src.len() == 4 {
        word::put_u32(&mut dst[0..4], word::be_u32(src));
    } else {
        dst[..src.len()].copy_from_slice(src);
    }
}

/// Puts the three bytes of `pads`, as many of them as there is room for.
// One by one: to copy the front takes some 25 instructions an AVP more, and a loop up to 22.
#[tactic(auto, unfolding(octets::specs::Octets::over))]
pub fn put_padding(pads: u32, out: &mut [u8])
    ensures { out.new ≡ over (take (length out.old) (octets 3 pads)) out.old }
{
    let pads = octets::to_be_u24(pads);
    if 0 < out.len() {
        out[0] = pads[0];
    }
    if 1 < out.len() {
        out[1] = pads[1];
    }
    if 2 < out.len() {
        out[2] = pads[2];
    }
}
