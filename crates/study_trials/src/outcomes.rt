//! What comes of a trial.

use std::alloc::AllocError;

/// What comes of the trial of a call.
#[derive(Clone, Copy, PartialEq, Eq)]
pub enum Outcome {
    /// It gave the right value.
    Right,
    /// It told out of memory, and gave the right value when it was made again.
    RightAgain,
    /// There was no memory for its inputs, and it wasn't made.
    Inputs,
    /// It gave another value, or told another error.
    Wrong,
    /// It told out of memory, and then anything but the right value.
    WrongAgain,
}

impl Outcome {
    /// What comes of a call that is made once more where it tells out of memory.
    pub fn of<F: Fn() -> Result<bool, AllocError>>(call: F) -> Outcome
        requires { F.IsAlwaysCallable call }
    {
        match call() {
            Ok(is_right) => Outcome::at_once(is_right),
            Err(_) => Outcome::again(call()),
        }
    }

    /// What comes of a call that gave a value at once.
    pub fn at_once(is_right: bool) -> Outcome {
        if is_right {
            Outcome::Right
        } else {
            Outcome::Wrong
        }
    }

    /// What comes of a call that told out of memory, and this when it was made again.
    pub fn again(second: Result<bool, AllocError>) -> Outcome {
        match second {
            Ok(true) => Outcome::RightAgain,
            _ => Outcome::WrongAgain,
        }
    }

    /// The same in words.
    pub fn words(self) -> &'static str {
        match self {
            Outcome::Right => "right",
            Outcome::RightAgain => "refused, and right when asked again",
            Outcome::Inputs => "inputs",
            Outcome::Wrong => "wrong",
            Outcome::WrongAgain => "wrong when asked again",
        }
    }

    /// Whether the call is as it should be, as far as it was made.
    pub fn is_right(self) -> bool {
        !matches!(self, Outcome::Wrong | Outcome::WrongAgain)
    }
}

/// What a call tells by an error: out of memory, or anything else, which is wrong.
pub fn told(is_memory: bool) -> Result<bool, AllocError> {
    if is_memory {
        Err(AllocError)
    } else {
        Ok(false)
    }
}
