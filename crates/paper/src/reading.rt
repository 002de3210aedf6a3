// Reading a whole paper.
ghost use Rattle.std.specs.Prelude.{◌≡◌, ◌^◌, ◌<◌, length, IfOk};
ghost use Rattle.paper_text.specs.Text.{paper_text};
ghost use Rattle.paper.specs.Format.{Accepted, Lawful};
ghost use Rattle.paper.specs.Reading.{reading, rooms_read};

use crate::checking::{add_room, begin_house, check_heading, missing};
use fault::refusal::Fault;
use forms::lines::Lines;
use house::House;

// The house with the rooms of all further lines.
#[tactic(auto, using(crate::proofs::Judging::joined_some))]
fn add_rooms(mut house: House, lines: Lines) -> Result<House, Fault>
    requires few { length lines < 2 ^ 63 }
    requires some { 0 < length house.rooms }
    ensures { result ≡ rooms_read 3 house lines.entry }
{
    for (text, line) in lines.zip(3..) {
        add_room(&mut house, text, line)?;
    }
    Ok(house)
}

#[tactic(auto, using(crate::proofs::Judging::joined_some))]
fn read_lines(paper: &[u8]) -> Result<House, Fault>
    ensures { result ≡ reading paper.now }
{
    let mut lines = Lines::new(paper);
    let first = lines.next().ok_or(missing(1))?;
    let heading = check_heading(first)?;
    let second = lines.next().ok_or(missing(2))?;
    let house = begin_house(heading, second, 2)?;
    add_rooms(house, lines)
}

// The house that a paper describes, or the first fault in it. A house has one paper: the one that is written of it.
pub fn read_paper(paper: &[u8]) -> Result<House, Fault>
    ensures value { result ≡ reading paper.now }
    ensures written { IfOk result (λ house. paper_text house ≡ paper.now) }
    ensures accepted { Accepted }
    ensures lawful { Lawful }
{
    read_lines(paper)
}
