// What the calls before allow.
ghost use Rattle.std.specs.Prelude.{◌≡◌};
ghost use Rattle.session.specs.Stages.{admitted};

use answers::decline::Decline;
use requests::request::Request;

// A session before and after its first accepted make.
#[derive(Clone, Copy)]
pub enum Stage {
    New,
    Made,
}

// Declines a make after an accepted make, and another call before one.
pub fn admit(stage: Stage, request: &Request<'_>) -> Result<(), Decline>
    ensures { result ≡ admitted stage request.now }
{
    match (stage, matches!(request, Request::Make { .. })) {
        (Stage::New, false) => Err(Decline::NotMade),
        (Stage::Made, true) => Err(Decline::AlreadyMade),
        _ => Ok(()),
    }
}
