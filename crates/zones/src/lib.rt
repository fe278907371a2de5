// Implements document 01 (Z1): the zone of a count, and the report of a word, which holds one or none.

#![tactic(auto)]

ghost use Rattle.std.specs.Prelude.{◌≡◌};
ghost use Rattle.zones.specs.Report.{zone_of, report_of_zone};

// The zone of a count: 0, 1, 2, or above, which carries the count.
#[derive(Clone, Copy)]
pub enum Zone {
    Zone0,
    Zone1,
    Zone2,
    Zone2Overflow { ones_count: u32 },
}

impl Zone {
    // The zone of a count.
    pub fn from_ones_count(ones_count: u32) -> Zone
        ensures { report_of_zone result ≡ zone_of ones_count }
    {
        match ones_count {
            0 => Zone::Zone0,
            1 => Zone::Zone1,
            2 => Zone::Zone2,
            _ => Zone::Zone2Overflow { ones_count },
        }
    }
}

// What a word reports to the viewer: its zone, or none for a zero out of a run and for a refused word.
#[derive(Clone, Copy)]
pub struct WordReport {
    pub zone: Option<Zone>,
}
