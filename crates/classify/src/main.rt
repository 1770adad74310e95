// Tries a rule list: reads rules and telegrams, fills a row chip with the rules, and prints the faults, the rows and
// each telegram's class. docs/classify.md has the input and the output.
#![tactic(auto)]

ghost use Rattle.std.specs.Prelude.{◌≡◌};
ghost use Rattle.codes.specs.Spans.{bits_of};

use chips::rows::RowChip;
use codes::joined::JoinedCode;
use rules::board::Board;
use simple::fence::FenceCode;
use simple::plain::PlainCode;
use std::io;

mod gather;
mod steps;

use gather::gather;
use steps::{class_telegrams, place_rules, print_faults};

// The fields of a telegram: port, plain at 16 bits, then hops, fenced at 4.
fn port_and_hops() -> JoinedCode<PlainCode, FenceCode>
    ensures { (bits_of result.first.width ≡ 16) × (bits_of result.second.width ≡ 4) }
{
    JoinedCode::new(PlainCode::new(16).unwrap(), FenceCode::new(4).unwrap())
}

fn run(rt: &HostRuntime) -> io::Result<()> {
    let code = port_and_hops();
    let input = gather(rt, &code)?;
    print_faults(rt, input.faults())?;
    let mut memory = [None; 256];
    let chip = RowChip::over(&mut memory[..usize::from(input.rows())]);
    let mut board = Board { chip, code };
    place_rules(rt, &mut board, input.rules())?;
    class_telegrams(rt, &board, input.telegrams())
}

fn main(rt: HostRuntime) -> io::Result<()> {
    run(&rt)
}
