//! `dev NAME`.

ghost use Rattle.std.specs.Prelude.{◌≡◌};
ghost use Rattle.bt_syntax.specs.DeviceSteps.{device_step, device_finish};

use console_operand::LineWord;

/// A device of which words are missing, or whose name is known.
#[derive(Drop)]
pub enum DeviceState<'a> {
    /// `dev` comes next.
    Dev,
    Name,
    Found(LineWord<'a>),
}

impl<'a> DeviceState<'a> {
    /// What one more word makes of it; `None` if no line goes on so.
    pub fn after(self, word: &'a [u8]) -> Option<DeviceState<'a>>
        ensures { result ≡ device_step self.entry word.now }
    {
        match self {
            DeviceState::Dev => {
                if word == b"dev".as_slice() {
                    Some(DeviceState::Name)
                } else {
                    None
                }
            }
            DeviceState::Name => Some(DeviceState::Found(LineWord::new(word))),
            DeviceState::Found(_) => None,
        }
    }

    /// The device's name, if the line may end here.
    pub fn finish(self) -> Option<LineWord<'a>>
        ensures { result ≡ device_finish self.entry }
    {
        match self {
            DeviceState::Found(name) => Some(name),
            _ => None,
        }
    }
}
