use hd_dbd::{Name8, Status};
use std::marker::Model;

/// A call as a program makes it: the function in four bytes, blank padded, its segment search arguments, and the I/O
/// area that it hands over.
#[derive(Debug, Drop)]
pub struct Call {
    pub func: [u8; 4],
    pub ssas: Vec<Vec<u8>>,
    pub area: Vec<u8>,
}

impl Model for Call {
    ghost use Rattle.std.specs.Prelude.{map};
    ghost use Rattle.hd_dbd.specs.Calls.{CallText};

    ghost Value = { CallText };

    ghost view = { λ c. record { function = c.func; ssas = map (λ s. s.items) c.ssas.items; area = c.area.items } };
}

/// What a call answered, as the PCB shows it: the status, and level and name of the segment given, or 0 and none. Key
/// and area stand in the `IoArea`.
#[derive(Clone, Copy, Debug)]
pub struct Answer {
    pub status: Status,
    pub level: u8,
    pub segment: Option<Name8>,
}
