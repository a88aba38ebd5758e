// The period of a building, the acceleration there, and the code base shear.
#![tactic(auto)]

ghost use Rattle.base_shear.specs.Accelerations.{AccelerationLaw};
ghost use Rattle.base_shear.specs.Periods.{PeriodLaw};

pub mod period;
pub mod shaking;
mod tables;

// The laws of the definitions that contracts cite, as theorems that a check asks for.
pub fn base_shear_laws_stand() -> u8
    ensures periods { PeriodLaw }
    ensures accelerations { AccelerationLaw }
{
    0
}
