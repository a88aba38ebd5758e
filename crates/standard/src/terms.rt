// What a site says of a building, term by term.
ghost use Rattle.std.specs.Prelude.{◌≡◌};
ghost use Rattle.standard.specs.Sites.{Reads, ReadsFormula, zone_value, zone_number, zone_listed, soil_value, soil_listed};
ghost use Rattle.standard.specs.Sites.{importance_value, importance_listed, system_value, system_listed, reduction, plan_value, plan_listed};

use std::error::Error;
use std::fmt;

// The seismic zones.
#[derive(Clone, Copy, PartialEq, Eq, Debug)]
pub enum Zone {
    II,
    III,
    IV,
    V,
}

#[derive(Clone, Copy, PartialEq, Eq, Debug)]
pub enum Soil {
    Hard,
    Medium,
    Soft,
}

#[derive(Clone, Copy, PartialEq, Eq, Debug)]
pub enum Importance {
    Ordinary = 10,
    Important = 15,
}

// What resists the shaking.
#[derive(Clone, Copy, PartialEq, Eq, Debug)]
pub enum System {
    OrdinaryConcreteFrame,
    SpecialConcreteFrame,
    ConcentricBraces,
    EccentricBraces,
    PlainMasonry,
    BandedMasonry,
    BarredMasonry,
    OrdinaryWall,
    DuctileWall,
    OrdinaryWallOrdinaryFrame,
    OrdinaryWallSpecialFrame,
    DuctileWallOrdinaryFrame,
    DuctileWallSpecialFrame,
}

// How the period follows from the height: a bare frame, or any other building by its base dimension.
#[derive(Clone, Copy, PartialEq, Eq, Debug)]
pub enum Formula {
    ConcreteFrame,
    SteelFrame,
    Other { base: u16 },
}

#[derive(Clone, Copy, PartialEq, Eq, Debug)]
pub enum Plan {
    Regular,
    Irregular,
}

// The terms of a site.
#[derive(Clone, Copy, PartialEq, Eq, Debug)]
pub struct SiteTerms {
    pub zone: Zone,
    pub soil: Soil,
    pub importance: Importance,
    pub system: System,
    pub formula: Formula,
    pub plan: Plan,
}

// A value that is not on the list of its term.
#[derive(Clone, Copy, PartialEq, Eq, Debug)]
pub struct Unlisted(pub u8);

impl fmt::Display for Unlisted {
    ghost use Rattle.std.specs.Prelude.{◌++◌, Some, codes};
    ghost use Rattle.std.specs.Fmt.{decimal};

    ghost output = { λ e. Some (codes "the value " ++ (decimal e.0 ++ codes " is not listed")) };

    fn fmt<W: fmt::Write>(&self, f: &mut fmt::Formatter<W>) -> fmt::Result {
        write!(f, "the value {} is not listed", self.0)
    }
}

impl Error for Unlisted {}

impl TryFrom<u8> for Zone {
    type Error = Unlisted;

    ghost try_from_gives = { Reads zone_listed zone_value };

    fn try_from(value: u8) -> Result<Self, Unlisted> {
        match value {
            2 => Ok(Zone::II),
            3 => Ok(Zone::III),
            4 => Ok(Zone::IV),
            5 => Ok(Zone::V),
            _ => Err(Unlisted(value)),
        }
    }
}

impl Zone {
    // A hundred times the zone factor.
    pub fn number(self) -> u32
        ensures { result ≡ zone_number self }
    {
        match self {
            Zone::II => 10,
            Zone::III => 16,
            Zone::IV => 24,
            Zone::V => 36,
        }
    }
}

impl TryFrom<u8> for Soil {
    type Error = Unlisted;

    ghost try_from_gives = { Reads soil_listed soil_value };

    fn try_from(value: u8) -> Result<Self, Unlisted> {
        match value {
            1 => Ok(Soil::Hard),
            2 => Ok(Soil::Medium),
            3 => Ok(Soil::Soft),
            _ => Err(Unlisted(value)),
        }
    }
}

impl TryFrom<u8> for Importance {
    type Error = Unlisted;

    ghost try_from_gives = { Reads importance_listed importance_value };

    fn try_from(value: u8) -> Result<Self, Unlisted> {
        match value {
            10 => Ok(Importance::Ordinary),
            15 => Ok(Importance::Important),
            _ => Err(Unlisted(value)),
        }
    }
}

impl Importance {
    // Ten times the importance factor.
    pub fn number(self) -> u32
        ensures { result ≡ importance_value self }
    {
        self as u32
    }
}

impl TryFrom<u8> for System {
    type Error = Unlisted;

    ghost try_from_gives = { Reads system_listed system_value };

    fn try_from(value: u8) -> Result<Self, Unlisted> {
        match value {
            1 => Ok(System::OrdinaryConcreteFrame),
            2 => Ok(System::SpecialConcreteFrame),
            3 => Ok(System::ConcentricBraces),
            4 => Ok(System::EccentricBraces),
            5 => Ok(System::PlainMasonry),
            6 => Ok(System::BandedMasonry),
            7 => Ok(System::BarredMasonry),
            8 => Ok(System::OrdinaryWall),
            9 => Ok(System::DuctileWall),
            10 => Ok(System::OrdinaryWallOrdinaryFrame),
            11 => Ok(System::OrdinaryWallSpecialFrame),
            12 => Ok(System::DuctileWallOrdinaryFrame),
            13 => Ok(System::DuctileWallSpecialFrame),
            _ => Err(Unlisted(value)),
        }
    }
}

impl System {
    // Ten times the response reduction factor.
    pub fn reduction_number(self) -> u32
        ensures { result ≡ reduction self }
    {
        match self {
            System::PlainMasonry => 15,
            System::BandedMasonry => 25,
            System::OrdinaryConcreteFrame => 30,
            System::BarredMasonry => 30,
            System::OrdinaryWall => 30,
            System::OrdinaryWallOrdinaryFrame => 30,
            System::ConcentricBraces => 40,
            System::DuctileWall => 40,
            System::OrdinaryWallSpecialFrame => 40,
            System::DuctileWallOrdinaryFrame => 45,
            System::SpecialConcreteFrame => 50,
            System::EccentricBraces => 50,
            System::DuctileWallSpecialFrame => 50,
        }
    }
}

// The formula of a number, with the base dimension that goes with it, whatever that is.
impl TryFrom<(u8, u16)> for Formula {
    type Error = Unlisted;

    ghost try_from_gives = { ReadsFormula };

    fn try_from((value, base): (u8, u16)) -> Result<Self, Unlisted> {
        match value {
            1 => Ok(Formula::ConcreteFrame),
            2 => Ok(Formula::SteelFrame),
            3 => Ok(Formula::Other { base }),
            _ => Err(Unlisted(value)),
        }
    }
}

impl TryFrom<u8> for Plan {
    type Error = Unlisted;

    ghost try_from_gives = { Reads plan_listed plan_value };

    fn try_from(value: u8) -> Result<Self, Unlisted> {
        match value {
            0 => Ok(Plan::Regular),
            1 => Ok(Plan::Irregular),
            _ => Err(Unlisted(value)),
        }
    }
}
