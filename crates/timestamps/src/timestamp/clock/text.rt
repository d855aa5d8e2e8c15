// Reads a time of the day from text, and writes it.
ghost use Rattle.std.specs.Prelude.{◌≡◌};
ghost use Rattle.std.specs.Option.{option_map};
ghost use Rattle.timestamps.specs.Times.{clock_of, clock_text};
ghost use Rattle.timestamps.specs.Timestamps.{second_of_day};

use super::TimeOfDay;
use texts::digits::write_digits;
use texts::numbers::read_three;

impl TimeOfDay {
    // The time that a text names.
    #[tactic(auto, using(std::proofs::lemmas::Bool::Decides::nat_tests), unfolding(crate::specs::Times::clock_of))]
    pub(crate) fn read(text: &[u8]) -> Option<TimeOfDay>
        ensures { option_map second_of_day result ≡ clock_of text.now }
    {
        let (hour, minute, second) = read_three(text, 2, b':')?;
        if hour > 23 || minute > 59 || second > 59 {
            return None;
        }
        Some(TimeOfDay {
            second: u32::from(hour) * 3600 + u32::from(minute) * 60 + u32::from(second),
        })
    }

    // The time as text.
    pub(crate) fn text(self) -> [u8; 8]
        ensures { result ≡ clock_text (second_of_day self) }
    {
        let mut text = *b"hh:mm:ss";
        write_digits(&mut text[0..2], u128::from(self.second / 3600));
        write_digits(&mut text[3..5], u128::from(self.second / 60 % 60));
        write_digits(&mut text[6..8], u128::from(self.second % 60));
        text
    }
}
