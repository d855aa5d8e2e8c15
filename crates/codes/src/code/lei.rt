// LEIs among other codes.
ghost use Rattle.std.specs.Prelude.{◌≡◌};
ghost use Rattle.codes.specs.Codes.{text_of};

use super::{ClientCode, Code, Lei};
use std::marker::PhantomData;

// The same text as a client code, the type that holds either kind.
impl From<Lei> for ClientCode {
    ghost from_gives = { λ lei code. text_of code ≡ text_of lei };

    fn from(lei: Lei) -> ClientCode {
        let bytes = lei.bytes;
        Code {
            bytes,
            alphabet: PhantomData,
        }
    }
}
