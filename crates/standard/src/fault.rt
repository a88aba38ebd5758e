// Why a record or a call is refused.
ghost use Rattle.std.specs.Prelude.{◌≡◌};
ghost use Rattle.standard.specs.Faults.{number_of, layer_of, fault};

// One ground for each refusal of the whole product.
#[derive(Clone, Copy, PartialEq, Eq, Debug)]
pub enum Ground {
    ShortRecord = 1,
    UnknownLetter = 2,
    UnusedByte = 3,
    SiteOrder = 4,
    SiteValue = 5,
    FloorHeight = 6,
    FloorWeight = 7,
    TotalWeight = 8,
    TooManyFloors = 9,
    NoSuchFloor = 10,
    ModesEntered = 11,
    OrdinateCount = 12,
    ModePeriod = 13,
    OrdinateRange = 14,
    OrdinatesAllZero = 15,
    TooManyModes = 16,
    NoSuchMode = 17,
    SiteCurveStep = 18,
    NoFloors = 19,
    PeriodTooLong = 20,
    TooHighForStatic = 21,
    ModalWeightShort = 22,
    NoCombinedShear = 23,
    NoSuchRule = 24,
    PrintBuffer = 25,
}

// Where a refusal comes from.
#[derive(Clone, Copy, PartialEq, Eq, Debug)]
pub enum Layer {
    Record,
    Sheet,
    Method,
}

// A refusal: its ground, and the place that it names.
#[derive(Clone, Copy, PartialEq, Eq, Debug)]
pub struct Fault {
    pub ground: Ground,
    pub place: u32,
}

impl Ground {
    // The number under which a refusal is printed.
    pub fn number(self) -> u8
        ensures { result ≡ number_of self }
    {
        self as u8
    }

    // The layer that gives it.
    pub fn layer(self) -> Layer
        ensures { result ≡ layer_of self }
    {
        match self {
            Ground::ShortRecord
            | Ground::UnknownLetter
            | Ground::UnusedByte
            | Ground::SiteOrder
            | Ground::SiteValue
            | Ground::NoSuchRule
            | Ground::PrintBuffer => Layer::Record,
            Ground::FloorHeight
            | Ground::FloorWeight
            | Ground::TotalWeight
            | Ground::TooManyFloors
            | Ground::NoSuchFloor
            | Ground::ModesEntered
            | Ground::OrdinateCount
            | Ground::ModePeriod
            | Ground::OrdinateRange
            | Ground::OrdinatesAllZero
            | Ground::TooManyModes
            | Ground::NoSuchMode => Layer::Sheet,
            Ground::SiteCurveStep
            | Ground::NoFloors
            | Ground::PeriodTooLong
            | Ground::TooHighForStatic
            | Ground::ModalWeightShort
            | Ground::NoCombinedShear => Layer::Method,
        }
    }

    // A refusal on this ground, naming a place.
    pub fn at(self, place: u32) -> Fault
        ensures { result ≡ fault self place }
    {
        Fault {
            ground: self,
            place,
        }
    }
}
