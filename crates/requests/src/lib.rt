// What session lines ask for, or the first rule that they break.
#![tactic(auto)]

ghost use Rattle.requests.specs.Reading.{Read};

mod letters;
pub mod reading;
pub mod request;

use lines::line::LineFault;
use lines::parsing::parse;
use reading::read;
use request::Request;

// What a line asks for.
pub fn read_line(line: &[u8]) -> Result<Request<'_>, LineFault>
    ensures { Read line.now result }
{
    let said = parse(line)?;
    read(said)
}
