// The two-class code, as an engine sees it.
use array::Parameters;

// The two-class code with its parameters.
#[derive(Clone, Copy)]
pub struct TwoClass {
    pub parameters: Parameters,
}
