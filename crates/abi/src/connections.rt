// Channels and logical units, by their numbers.
ghost use Rattle.std.specs.Prelude.{◌≡◌};
ghost use Rattle.connection.specs.Channel.{channel_hands, valid_channel};
ghost use Rattle.flat_form.specs.Form.{refusal};
ghost use Rattle.abi.specs.Units.{unit_hands};

use connection::{Channel, InvalidChannel, LogicalUnit};
use field::numbers::INVALID_CHANNEL;
use flat_form::{SelAnswer, no_question, refused};

#[unsafe(no_mangle)]
pub extern "C" fn sel_channel(number: u8) -> SelAnswer
    ensures { result ≡ refusal (channel_hands valid_channel number) }
{
    match Channel::new(number) {
        Ok(channel) => SelAnswer {
            number: 0,
            value: channel.value() as usize,
        },
        Err(InvalidChannel(n)) => refused(INVALID_CHANNEL, n as usize),
    }
}

#[unsafe(no_mangle)]
pub extern "C" fn sel_unit(number: u8) -> SelAnswer
    ensures { result ≡ refusal (unit_hands number) }
{
    match LogicalUnit::try_from(number) {
        Ok(unit) => SelAnswer {
            number: 0,
            value: u8::from(unit) as usize,
        },
        Err(_) => no_question(),
    }
}
