//! Why bytes are no frame or callsign, and why parts make no frame.
ghost use Rattle.std.specs.Prelude.{◌≡◌};
ghost use Rattle.aprs_ax25.specs.Fault as Spec;

/// Why bytes are no UI frame: the first of these that is true of them, in the order of their
/// numbers.
#[derive(Clone, Copy, Debug, PartialEq, Eq)]
pub enum FrameFault {
    /// The first octet with its extension bit set doesn't end 2 to 10 addresses, or no octet has it
    /// set (AX.25 2.2, section 3.12).
    Address,
    /// An address's callsign isn't 1 to 6 capitals or digits, padded with spaces.
    Callsign,
    /// The control octet is missing, or isn't 03, that of a UI frame without poll (AX.25 2.2,
    /// section 4.3.3.6).
    Control,
    /// The PID octet is missing, or isn't F0, no layer 3 protocol.
    Pid,
    /// There is no information.
    NoInfo,
    /// There are more than 256 bytes of information.
    LongInfo,
}

impl FrameFault {
    /// The fault's number, 1 to 6. Takes no memory.
    pub fn number(&self) -> u8
        ensures { result ≡ Spec.frame_fault_number self.now }
    {
        match self {
            FrameFault::Address => 1,
            FrameFault::Callsign => 2,
            FrameFault::Control => 3,
            FrameFault::Pid => 4,
            FrameFault::NoInfo => 5,
            FrameFault::LongInfo => 6,
        }
    }

    /// The fault's name, such as `Address`. Takes no memory.
    pub fn name(&self) -> &'static str
        ensures { result.now ≡ Spec.frame_fault_name self.now }
    {
        match self {
            FrameFault::Address => "Address",
            FrameFault::Callsign => "Callsign",
            FrameFault::Control => "Control",
            FrameFault::Pid => "Pid",
            FrameFault::NoInfo => "NoInfo",
            FrameFault::LongInfo => "LongInfo",
        }
    }
}

/// Why bytes are no callsign's text: the first of these that is true of them, in the order of their
/// numbers.
#[derive(Clone, Copy, Debug, PartialEq, Eq)]
pub enum CallFault {
    /// The part before the first dash, or all of the text where there is none, isn't 1 to 6 bytes
    /// long.
    Length,
    /// A byte before the first dash is neither a capital nor a digit.
    Character,
    /// What follows the dash isn't a number from 1 to 15 without a leading zero.
    Ssid,
}

impl CallFault {
    /// The fault's number, 1 to 3. Takes no memory.
    pub fn number(&self) -> u8
        ensures { result ≡ Spec.call_fault_number self.now }
    {
        match self {
            CallFault::Length => 1,
            CallFault::Character => 2,
            CallFault::Ssid => 3,
        }
    }

    /// The fault's name, such as `Length`. Takes no memory.
    pub fn name(&self) -> &'static str
        ensures { result.now ≡ Spec.call_fault_name self.now }
    {
        match self {
            CallFault::Length => "Length",
            CallFault::Character => "Character",
            CallFault::Ssid => "Ssid",
        }
    }
}

/// Why parts make no frame: the first of these that is true of them, in the order of their numbers.
#[derive(Clone, Copy, Debug, PartialEq, Eq)]
pub enum MakeFault {
    /// There are more than 8 digipeaters.
    Hops,
    /// There is no information.
    NoInfo,
    /// There are more than 256 bytes of information.
    LongInfo,
}

impl MakeFault {
    /// The fault's number, 1 to 3. Takes no memory.
    pub fn number(&self) -> u8
        ensures { result ≡ Spec.make_fault_number self.now }
    {
        match self {
            MakeFault::Hops => 1,
            MakeFault::NoInfo => 2,
            MakeFault::LongInfo => 3,
        }
    }

    /// The fault's name, such as `Hops`. Takes no memory.
    pub fn name(&self) -> &'static str
        ensures { result.now ≡ Spec.make_fault_name self.now }
    {
        match self {
            MakeFault::Hops => "Hops",
            MakeFault::NoInfo => "NoInfo",
            MakeFault::LongInfo => "LongInfo",
        }
    }
}
