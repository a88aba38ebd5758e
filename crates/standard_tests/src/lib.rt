// Bad and borderline input to the standard's own calls.
#![tactic(auto)]

#[cfg(test)]
mod tests {
    use base_shear::shaking::Shaking;
    use spectra::curve::{SiteCurve, Step};
    use spectra::spectrum::{CodeCurve, Spectrum};
    use standard::fault::{Fault, Ground};
    use standard::fraction::Fraction;
    use standard::measures::{Height, Period};
    use standard::site::Site;
    use standard::terms::Soil;
    use standard::values::SiteValues;
    use std::test::Fail;

    const GOOD: SiteValues = SiteValues {
        zone: 3,
        soil: 2,
        importance: 10,
        system: 1,
        formula: 3,
        plan: 0,
        base: 225,
    };

    // The place that a site is refused at, if it is.
    fn site_place(values: SiteValues) -> Option<u32> {
        Site::accept(&values).err().map(|fault| fault.place)
    }

    // The place that steps are refused at, if they are.
    fn curve_place(steps: &[Step]) -> Option<u32> {
        SiteCurve::new().fill(steps).err().map(|fault| fault.place)
    }

    fn step(upper: u16, thousandths: u16) -> Step {
        Step { upper, thousandths }
    }

    // Steps 100 apart.
    fn rising_steps() -> [Step; 33] {
        let mut steps = [step(1, 1); 33];
        for (i, place) in steps.iter_mut().enumerate() {
            *place = step(100 * i as u16 + 100, 1000);
        }
        steps
    }

    // What a spectrum answers, where there is such a period.
    fn ordinate<S: Spectrum>(spectrum: &S, milliseconds: u32) -> Option<Fraction> {
        Period::new(milliseconds).map(|period| spectrum.at(period))
    }

    #[test]
    fn site_values_off_their_lists(rt: HostRuntime) {
        assert_eq!(rt; site_place(GOOD), None);
        for zone in [0, 1, 6, 255] {
            assert_eq!(rt; site_place(SiteValues { zone, ..GOOD }), Some(1));
        }
        for soil in [0, 4, 255] {
            assert_eq!(rt; site_place(SiteValues { soil, ..GOOD }), Some(2));
        }
        for importance in [0, 9, 11, 12, 14, 16] {
            assert_eq!(rt; site_place(SiteValues { importance, ..GOOD }), Some(3));
        }
        for system in [0, 14, 255] {
            assert_eq!(rt; site_place(SiteValues { system, ..GOOD }), Some(4));
        }
        for plan in [2, 255] {
            assert_eq!(rt; site_place(SiteValues { plan, ..GOOD }), Some(6));
        }
    }

    #[test]
    fn base_dimensions(rt: HostRuntime) {
        for formula in [0, 4, 255] {
            assert_eq!(rt; site_place(SiteValues { formula, ..GOOD }), Some(5));
        }
        for base in [0, 19, 5001, 65535] {
            assert_eq!(rt; site_place(SiteValues { base, ..GOOD }), Some(7));
        }
        for base in [20, 5000] {
            assert_eq!(rt; site_place(SiteValues { base, ..GOOD }), None);
        }
        for formula in [1, 2] {
            assert_eq!(rt; site_place(SiteValues { formula, ..GOOD }), Some(7));
            assert_eq!(rt;
                site_place(SiteValues {
                    formula,
                    base: 0,
                    ..GOOD
                }),
                None
            );
        }
    }

    #[test]
    fn the_first_bad_value_is_named(rt: HostRuntime) {
        let all_bad = SiteValues {
            zone: 0,
            soil: 0,
            importance: 0,
            system: 0,
            formula: 0,
            plan: 9,
            base: 1,
        };
        assert_eq!(rt; site_place(all_bad), Some(1));
        assert_eq!(rt; site_place(SiteValues { zone: 5, ..all_bad }), Some(2));
        assert_eq!(rt;
            site_place(SiteValues {
                zone: 5,
                soil: 3,
                importance: 15,
                ..all_bad
            }),
            Some(4)
        );
        assert_eq!(rt;
            site_place(SiteValues {
                plan: 2,
                base: 0,
                ..GOOD
            }),
            Some(6)
        );
    }

    #[test]
    fn site_curves_of_too_few_and_too_many_steps(rt: HostRuntime) {
        let mut steps = rising_steps();
        assert_eq!(rt; curve_place(&steps[0..0]), Some(0));
        assert_eq!(rt; curve_place(&steps), Some(0));
        assert_eq!(rt; curve_place(&steps[0..32]), Some(32));
        steps[31] = step(4000, 8000);
        assert_eq!(rt; curve_place(&steps[0..32]), None);
        assert_eq!(rt; curve_place(&steps[31..32]), None);
    }

    #[test]
    fn site_curves_of_bad_steps(rt: HostRuntime) {
        assert_eq!(rt; curve_place(&[step(0, 1000), step(4000, 1)]), Some(1));
        assert_eq!(rt; curve_place(&[step(1, 0), step(4000, 1)]), Some(1));
        assert_eq!(rt; curve_place(&[step(1, 1), step(4000, 8001)]), Some(2));
        assert_eq!(rt; curve_place(&[step(1, 1), step(4000, 8000)]), None);
        assert_eq!(rt;
            curve_place(&[step(500, 1), step(500, 1), step(4000, 1)]),
            Some(2)
        );
        assert_eq!(rt;
            curve_place(&[step(500, 1), step(400, 1), step(4000, 1)]),
            Some(2)
        );
        assert_eq!(rt; curve_place(&[step(500, 1), step(3999, 1)]), Some(2));
        assert_eq!(rt; curve_place(&[step(5000, 1), step(6000, 1)]), Some(2));
    }

    #[test]
    fn a_refused_fill_keeps_the_curve(rt: HostRuntime) -> Result<(), Fail> {
        let mut curve = SiteCurve::new();
        let level = Fraction {
            numerator: 2500,
            denominator: 1000,
        };
        assert_eq!(rt; ordinate(&curve, 700), Some(level));
        let refused = curve.fill(&[step(700, 3000), step(4000, 9000)]);
        assert_eq!(rt;
            refused,
            Err(Fault {
                ground: Ground::SiteCurveStep,
                place: 2,
            })
        );
        assert_eq!(rt; ordinate(&curve, 700), Some(level));
        curve.fill(&[step(700, 3000), step(4000, 900)])?;
        assert_eq!(rt;
            ordinate(&curve, 700),
            Some(Fraction {
                numerator: 3000,
                denominator: 1000,
            })
        );
        Ok(())
    }

    #[test]
    fn the_code_curve_at_its_corners(rt: HostRuntime) {
        let curve = CodeCurve { soil: Soil::Soft };
        let expected = [
            (1, 1015, 1000),
            (100, 2500, 1000),
            (101, 5, 2),
            (670, 5, 2),
            (671, 1670, 671),
            (4000, 1670, 4000),
        ];
        for (t, numerator, denominator) in expected {
            assert_eq!(rt;
                ordinate(&curve, t),
                Some(Fraction {
                    numerator,
                    denominator,
                })
            );
        }
        assert!(rt; Period::new(0).is_none());
        assert!(rt; Period::new(4001).is_none());
    }

    #[test]
    fn a_period_above_4000_is_refused(rt: HostRuntime) -> Result<(), Fail> {
        let steel = Site::accept(&SiteValues {
            formula: 2,
            base: 0,
            ..GOOD
        })?;
        let curve = CodeCurve::from(&steel);
        let tall = Height { value: 2000 };
        let shaking = Shaking {
            site: &steel,
            spectrum: &curve,
        };
        let refused = shaking.code_base_shear(tall, 100_000);
        assert_eq!(rt;
            refused,
            Err(Fault {
                ground: Ground::PeriodTooLong,
                place: 4521,
            })
        );
        assert!(rt; Height::new(19).is_none());
        assert!(rt; Height::new(2001).is_none());
        Ok(())
    }
}
