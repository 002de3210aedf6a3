// The paper of a house, written into the caller's buffer.
#![tactic(auto)]

ghost use Rattle.std.specs.Prelude.{◌≡◌, length};
ghost use Rattle.paper_text.specs.Text.{paper_text, told, written};

use fault::place::Place;
use fault::reason::Reason;
use fault::refusal::Fault;
use house::House;
use lines::put_house;

mod lines;
mod page;
#[cfg(test)]
mod tests;

// The length of the paper in bytes.
pub fn paper_length(house: &House) -> usize
    ensures { result ≡ length (paper_text house.now) }
{
    // With no place for a byte, putting the paper only counts.
    put_house(&mut [], house)
}

// The buffer is the caller's: no memory is asked for.
// Writes the paper to the front of the buffer, and tells its length in bytes. A buffer that is
// shorter than the paper keeps its content, and so do the bytes past the paper.
pub fn write_house(house: &House, buffer: &mut [u8]) -> Result<usize, Fault>
    ensures value { result ≡ told (paper_text house.now) buffer.old }
    ensures after { buffer.new ≡ written (paper_text house.now) buffer.old }
{
    if buffer.len() < paper_length(house) {
        return Err(Fault::new(Reason::BufferTooShort, Place::Nowhere));
    }
    Ok(put_house(buffer, house))
}
