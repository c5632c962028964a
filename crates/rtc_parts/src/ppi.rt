//! Payload protocol identifiers.
ghost use Rattle.std.specs.Prelude.{◌≡◌};
ghost use Rattle.rtc_parts.specs.Ppi.{ppi_number, ppi_of};

/// What a message is, by its payload protocol identifier (RFC 8831, section 8).
#[derive(Clone, Copy, Debug, PartialEq, Eq)]
pub enum Ppi {
    /// A message that opens a channel or acknowledges it.
    Dcep,
    Text,
    Binary,
    EmptyText,
    EmptyBinary,
    Other(u32),
}

impl Ppi {
    /// The identifier with this number. A number with a name never gives `Other`.
    pub fn of(number: u32) -> Ppi
        ensures { result ≡ ppi_of number }
    {
        match number {
            50 => Ppi::Dcep,
            51 => Ppi::Text,
            53 => Ppi::Binary,
            56 => Ppi::EmptyText,
            57 => Ppi::EmptyBinary,
            _ => Ppi::Other(number),
        }
    }

    /// Its number.
    pub fn number(self) -> u32
        ensures { result ≡ ppi_number self }
    {
        match self {
            Ppi::Dcep => 50,
            Ppi::Text => 51,
            Ppi::Binary => 53,
            Ppi::EmptyText => 56,
            Ppi::EmptyBinary => 57,
            Ppi::Other(number) => number,
        }
    }
}
