// Channels and logical units. After src/connection/mod.rs of ipmi-rs-core 0.6.0, changed: docs/SCOPE.md has the rules.
#![tactic(auto)]

ghost use Rattle.std.specs.Prelude.{◌≡◌};
ghost use Rattle.field.specs.Handed.{Answers};
ghost use Rattle.connection.specs.Channel.{channel_at, channel_hands, channel_number, channel_of, number_of, valid_channel};
ghost use Rattle.connection.specs.Unit.{unit_named, unit_number, unit_of};
ghost use Rattle.connection.specs.Version.{last_numbered, valid_in, valid_to, version_of};

// The versions of the standard that are told apart: they differ in the valid channels.
#[derive(Clone, Copy, Debug, PartialEq, Eq)]
pub enum Version {
    V1_5,
    V2_0,
}

// A number that names no version.
#[derive(Clone, Copy, Debug, PartialEq, Eq)]
pub struct UnnamedVersion;

// By the number that Get Device ID gives it. That of Get SEL Info is another: it is 51h under 2.0 too.
impl TryFrom<u8> for Version {
    type Error = UnnamedVersion;

    ghost try_from_gives = { λ value r. r ≡ version_of value };

    #[tactic(auto, unfolding(crate::specs::Version::version_of))]
    fn try_from(value: u8) -> Result<Version, UnnamedVersion> {
        match value {
            0x51 => Ok(Version::V1_5),
            0x02 => Ok(Version::V2_0),
            _ => Err(UnnamedVersion),
        }
    }
}

impl Version {
    // The last numbered channel, which is all that the versions differ in.
    pub fn last_numbered(self) -> u8
        ensures { result ≡ last_numbered self }
    {
        match self {
            Version::V1_5 => 0x7,
            Version::V2_0 => 0xB,
        }
    }
}

// The number of a numbered channel, 1h to Bh.
#[derive(Clone, Copy, Debug, PartialEq, Eq)]
pub struct ChannelNumber(u8);

// The channel on which a module or sensor is present.
#[derive(Clone, Copy, Debug, PartialEq, Eq)]
pub enum Channel {
    Primary,
    Numbered(ChannelNumber),
    System,
    Current,
}

// A number that names no channel.
#[derive(Clone, Copy, Debug, PartialEq, Eq)]
pub struct InvalidChannel(pub u8);

// Whether a number names a channel, where the numbered ones end at `last`: the one test of it.
#[tactic(auto, unfolding(crate::specs::Version::valid_to))]
pub fn is_channel_to(last: u8, value: u8) -> bool
    ensures { result ≡ valid_to last value }
{
    value <= last || value == 0xE || value == 0xF
}

impl Channel {
    pub fn new(value: u8) -> Result<Channel, InvalidChannel>
        ensures { Answers result (channel_of valid_channel value) number_of (channel_hands valid_channel value) }
    {
        Channel::new_in(Version::V2_0, value)
    }

    pub fn new_in(version: Version, value: u8) -> Result<Channel, InvalidChannel>
        ensures { Answers result (channel_of (valid_in version) value) number_of (channel_hands (valid_in version) value) }
    {
        if is_channel_to(version.last_numbered(), value) {
            return Ok(Channel::named(value));
        }
        Err(InvalidChannel(value))
    }

    // The channel that a valid number names.
    #[tactic(auto, unfolding(crate::specs::Channel::channel_at))]
    fn named(value: u8) -> Channel
        ensures { result ≡ channel_at value }
    {
        match value {
            0 => Channel::Primary,
            0xE => Channel::Current,
            0xF => Channel::System,
            _ => Channel::Numbered(ChannelNumber(value)),
        }
    }

    pub fn value(self) -> u8
        ensures { result ≡ channel_number self }
    {
        match self {
            Channel::Primary => 0,
            Channel::Numbered(n) => n.0,
            Channel::Current => 0xE,
            Channel::System => 0xF,
        }
    }
}

// The logical unit of a module or sensor.
#[derive(Clone, Copy, Debug, PartialEq, Eq)]
pub enum LogicalUnit {
    Zero,
    One,
    Two,
    Three,
}

// A number over 3.
#[derive(Clone, Copy, Debug, PartialEq, Eq)]
pub struct InvalidUnit;

impl LogicalUnit {
    // The unit in the two lowest bits; the others are not looked at.
    #[tactic(auto, unfolding(crate::specs::Unit::unit_of))]
    pub fn from_low_bits(value: u8) -> LogicalUnit
        ensures { result ≡ unit_of value }
    {
        let low = value % 4;
        match low {
            0 => LogicalUnit::Zero,
            1 => LogicalUnit::One,
            2 => LogicalUnit::Two,
            _ => LogicalUnit::Three,
        }
    }
}

impl TryFrom<u8> for LogicalUnit {
    type Error = InvalidUnit;

    ghost try_from_gives = { λ value r. r ≡ unit_named value };

    #[tactic(auto, unfolding(crate::specs::Unit::unit_named))]
    fn try_from(value: u8) -> Result<LogicalUnit, InvalidUnit> {
        if value <= 3 {
            return Ok(LogicalUnit::from_low_bits(value));
        }
        Err(InvalidUnit)
    }
}

impl From<LogicalUnit> for u8 {
    ghost from_gives = { λ unit n. n ≡ unit_number unit };

    fn from(unit: LogicalUnit) -> u8 {
        match unit {
            LogicalUnit::Zero => 0,
            LogicalUnit::One => 1,
            LogicalUnit::Two => 2,
            LogicalUnit::Three => 3,
        }
    }
}
