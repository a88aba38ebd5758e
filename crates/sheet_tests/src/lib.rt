// Each refusal of a sheet at its limit and one beyond, and in its order against its neighbours.
#![tactic(auto)]

#[cfg(test)]
mod tests {
    use base_shear::shaking::Shaking;
    use combination::{AbsoluteSum, SumOfSquares};
    use sheet::{Call, ModeShape, Sheet, run};
    use spectra::spectrum::CodeCurve;
    use standard::fault::Fault;
    use standard::site::Site;
    use standard::terms::Soil;
    use standard::values::SiteValues;
    use std::test::Fail;

    const CURVE: CodeCurve = CodeCurve { soil: Soil::Medium };

    const GOOD: SiteValues = SiteValues {
        zone: 3,
        soil: 2,
        importance: 10,
        system: 1,
        formula: 3,
        plan: 0,
        base: 225,
    };

    // A refusal by its number and place.
    fn told(answer: Result<(), Fault>) -> Result<(), (u8, u32)> {
        answer.map_err(|fault| (fault.ground.number(), fault.place))
    }

    // A mode whose first `count` ordinates are `ordinate`.
    fn shape(period: u16, count: u8, ordinate: i16) -> ModeShape {
        ModeShape {
            period,
            count,
            ordinates: [ordinate; 40],
        }
    }

    // A sheet of floors ten apart from 20 on, each of weight 1000.
    fn tower(floors: u16) -> Sheet {
        let mut sheet = Sheet::new();
        for i in 0..floors {
            let _ = sheet.floor(i.saturating_mul(10).saturating_add(20), 1000);
        }
        sheet
    }

    // A static run, or the refusal of its site.
    fn static_on(
        zone: u8,
        plan: u8,
        formula: u8,
        base: u16,
        sheet: &mut Sheet,
    ) -> Result<(), (u8, u32)> {
        let values = SiteValues {
            zone,
            formula,
            plan,
            base,
            ..GOOD
        };
        told(Site::accept(&values).and_then(|site| {
            sheet.run_static(&Shaking {
                site: &site,
                spectrum: &CURVE,
            })
        }))
    }

    #[test]
    fn floors_at_their_limits(rt: HostRuntime) {
        let mut sheet = Sheet::new();
        assert_eq!(rt; told(sheet.floor(19, 100)), Err((6, 1)));
        assert_eq!(rt; told(sheet.floor(2001, 99)), Err((6, 1)));
        assert_eq!(rt; told(sheet.floor(20, 99)), Err((7, 1)));
        assert_eq!(rt; told(sheet.floor(20, 100_001)), Err((7, 1)));
        assert_eq!(rt; told(sheet.floor(20, 100)), Ok(()));
        assert_eq!(rt; told(sheet.floor(20, 100)), Err((6, 2)));
        assert_eq!(rt; told(sheet.floor(21, 100_000)), Ok(()));
        for i in 0..3u16 {
            assert_eq!(rt; told(sheet.floor(22 + i, 100_000)), Ok(()));
        }
        assert_eq!(rt; told(sheet.floor(2000, 99_901)), Err((8, 6)));
        assert_eq!(rt; told(sheet.floor(2000, 99_900)), Ok(()));
        assert_eq!(rt; told(sheet.floor(2000, 100)), Err((6, 7)));
    }

    #[test]
    fn a_full_sheet(rt: HostRuntime) {
        let mut sheet = tower(40);
        assert_eq!(rt; told(sheet.floor(500, 100)), Err((9, 41)));
        assert_eq!(rt; told(sheet.floor(500, 99)), Err((7, 41)));
        assert_eq!(rt; told(sheet.floor(410, 100)), Err((6, 41)));
        assert_eq!(rt; told(sheet.mode(&shape(100, 40, 1))), Ok(()));
        assert_eq!(rt; told(sheet.floor(500, 100)), Err((9, 41)));
    }

    #[test]
    fn reweighs_at_their_limits(rt: HostRuntime) {
        let mut sheet = tower(5);
        assert_eq!(rt; told(sheet.reweigh(0, 99)), Err((7, 0)));
        assert_eq!(rt; told(sheet.reweigh(6, 100_001)), Err((7, 6)));
        assert_eq!(rt; told(sheet.reweigh(0, 100)), Err((10, 0)));
        assert_eq!(rt; told(sheet.reweigh(6, 100_000)), Err((10, 6)));
        for i in 1..5u8 {
            assert_eq!(rt; told(sheet.reweigh(i, 100_000)), Ok(()));
        }
        assert_eq!(rt; told(sheet.reweigh(5, 100_000)), Ok(()));
        assert_eq!(rt; told(sheet.floor(100, 100)), Err((8, 6)));
        assert_eq!(rt; told(Sheet::new().reweigh(1, 100)), Err((10, 1)));
    }

    #[test]
    fn modes_at_their_limits(rt: HostRuntime) {
        assert_eq!(rt; told(Sheet::new().mode(&shape(100, 0, 1))), Err((12, 0)));
        let mut sheet = tower(3);
        assert_eq!(rt; told(sheet.mode(&shape(0, 2, 4001))), Err((12, 2)));
        assert_eq!(rt; told(sheet.mode(&shape(0, 255, 1))), Err((12, 255)));
        assert_eq!(rt; told(sheet.mode(&shape(0, 3, 4001))), Err((13, 1)));
        assert_eq!(rt; told(sheet.mode(&shape(4001, 3, 1))), Err((13, 1)));
        assert_eq!(rt; told(sheet.mode(&shape(4000, 3, 4001))), Err((14, 1)));
        assert_eq!(rt; told(sheet.mode(&shape(4000, 3, -4001))), Err((14, 1)));
        assert_eq!(rt; told(sheet.mode(&shape(4000, 3, 0))), Err((15, 1)));
        assert_eq!(rt; told(sheet.mode(&shape(4000, 3, -4000))), Ok(()));
        assert_eq!(rt; told(sheet.mode(&shape(4000, 3, 1))), Err((13, 2)));
        let mut third = shape(10, 3, 1);
        third.ordinates[2] = 4001;
        assert_eq!(rt; told(sheet.mode(&third)), Err((14, 3)));
        assert_eq!(rt; told(sheet.floor(100, 100)), Err((11, 1)));
    }

    #[test]
    fn ten_modes_and_strikes(rt: HostRuntime) {
        let mut sheet = tower(1);
        assert_eq!(rt; told(sheet.strike(1)), Err((17, 1)));
        for k in 0..9u16 {
            assert_eq!(rt; told(sheet.mode(&shape(100 - k, 1, 1))), Ok(()));
        }
        assert_eq!(rt; told(sheet.mode(&shape(50, 1, 1))), Err((16, 10)));
        assert_eq!(rt; told(sheet.mode(&shape(50, 1, 0))), Err((15, 10)));
        assert_eq!(rt; told(sheet.strike(0)), Err((17, 0)));
        assert_eq!(rt; told(sheet.strike(10)), Err((17, 10)));
        assert_eq!(rt; told(sheet.strike(9)), Ok(()));
        assert_eq!(rt; told(sheet.mode(&shape(93, 1, 1))), Err((13, 9)));
        assert_eq!(rt; told(sheet.mode(&shape(92, 1, 1))), Ok(()));
        assert_eq!(rt; told(sheet.strike(1)), Ok(()));
        assert_eq!(rt; told(sheet.floor(100, 100)), Err((11, 8)));
    }

    #[test]
    fn static_up_to_its_height(rt: HostRuntime) {
        assert_eq!(rt; static_on(4, 0, 1, 0, &mut Sheet::new()), Err((19, 0)));
        let limits = [
            (2, 0, 900, 901),
            (3, 1, 400, 401),
            (4, 0, 400, 401),
            (4, 1, 120, 121),
            (5, 0, 400, 401),
            (5, 1, 120, 121),
        ];
        for (zone, plan, limit, above) in limits {
            let mut sheet = Sheet::new();
            assert_eq!(rt; told(sheet.floor(limit, 1000)), Ok(()));
            assert_eq!(rt; static_on(zone, plan, 1, 0, &mut sheet), Ok(()));
            assert_eq!(rt; told(sheet.floor(above, 1000)), Ok(()));
            assert_eq!(rt;
                static_on(zone, plan, 1, 0, &mut sheet),
                Err((21, above as u32))
            );
        }
        let mut tall = Sheet::new();
        assert_eq!(rt; told(tall.floor(2000, 1000)), Ok(()));
        assert_eq!(rt; static_on(4, 0, 2, 0, &mut tall), Err((20, 4521)));
    }

    #[test]
    fn an_edit_takes_forces_away_and_a_refusal_does_not(rt: HostRuntime) {
        let mut sheet = tower(2);
        assert!(rt; sheet.reading(1).is_none());
        assert_eq!(rt; static_on(3, 0, 3, 100, &mut sheet), Ok(()));
        assert!(rt; sheet.reading(1).is_some());
        assert!(rt; sheet.reading(0).is_none());
        assert!(rt; sheet.reading(3).is_none());
        assert_eq!(rt; told(sheet.reweigh(3, 1000)), Err((10, 3)));
        assert!(rt; sheet.reading(2).is_some());
        assert_eq!(rt; told(sheet.reweigh(2, 1000)), Ok(()));
        assert!(rt; sheet.reading(2).is_none());
    }

    fn floor(height: u16, weight: u32) -> Call {
        Call::Floor { height, weight }
    }

    // The floors of the office and a static run, with calls between them that are refused or undone.
    fn office_calls() -> [Call; 10] {
        [
            floor(30, 36190),
            floor(60, 36190),
            floor(60, 36190),
            floor(90, 36190),
            Call::Mode {
                shape: shape(500, 3, 1),
            },
            floor(120, 27935),
            Call::Strike { mode: 1 },
            floor(120, 100),
            Call::Reweigh {
                floor: 4,
                weight: 27935,
            },
            Call::Static,
        ]
    }

    #[test]
    fn a_list_of_calls(rt: HostRuntime) -> Result<(), Fail> {
        let site = Site::accept(&GOOD)?;
        let shaking = Shaking {
            site: &site,
            spectrum: &CURVE,
        };
        let sheet = run(&shaking, &SumOfSquares, &office_calls());
        assert_eq!(rt; sheet.reading(1), Some((9100, 9100, 345)));
        assert_eq!(rt; sheet.reading(2), Some((8755, 8755, 1382)));
        assert_eq!(rt; sheet.reading(3), Some((7373, 7373, 3108)));
        assert_eq!(rt; sheet.reading(4), Some((4265, 4265, 4265)));
        assert_eq!(rt; sheet.reading(5), None);
        Ok(())
    }

    // A sheet of the two-storey frame, with its slower mode or without.
    fn frame(slow: bool) -> Sheet {
        let mut sheet = Sheet::new();
        let _ = sheet.floor(30, 20000);
        let _ = sheet.floor(60, 20000);
        let mut first = shape(500, 2, 618);
        first.ordinates[1] = 1000;
        let mut second = shape(190, 2, 1000);
        second.ordinates[1] = -618;
        if slow {
            let _ = sheet.mode(&first);
        }
        let _ = sheet.mode(&second);
        sheet
    }

    #[test]
    fn modal_runs(rt: HostRuntime) -> Result<(), Fail> {
        let site = Site::accept(&SiteValues {
            soil: 1,
            system: 2,
            formula: 1,
            base: 0,
            ..GOOD
        })?;
        let hard = Shaking {
            site: &site,
            spectrum: &CodeCurve { soil: Soil::Hard },
        };
        let mut sheet = frame(true);
        assert_eq!(rt; told(sheet.run_modal(&hard, &SumOfSquares)), Ok(()));
        assert_eq!(rt; sheet.reading(1), Some((1215, 1600, 598)));
        assert_eq!(rt; sheet.reading(2), Some((761, 1002, 1002)));
        assert_eq!(rt; told(sheet.run_modal(&hard, &AbsoluteSum)), Ok(()));
        assert_eq!(rt; sheet.reading(1), Some((1296, 1600, 506)));
        assert_eq!(rt; sheet.reading(2), Some((886, 1094, 1094)));
        assert_eq!(rt;
            told(frame(false).run_modal(&hard, &SumOfSquares)),
            Err((22, 2112))
        );
        assert_eq!(rt;
            told(tower(2).run_modal(&hard, &SumOfSquares)),
            Err((22, 0))
        );
        assert_eq!(rt;
            told(Sheet::new().run_modal(&hard, &SumOfSquares)),
            Err((19, 0))
        );
        Ok(())
    }

    #[test]
    fn size_of_a_sheet(rt: HostRuntime) {
        assert_eq!(rt; std::mem::size_of::<Sheet>(), 2048);
    }
}
