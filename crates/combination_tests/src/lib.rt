#![tactic(auto)]

#[cfg(test)]
mod tests {
    use combination::{
        AbsoluteSum, Grouping, Response, ResponseList, Rule, RuleChoice, SumOfSquares, UnknownRule,
        combined_at_most_sum, twice_grouped,
    };
    use std::test::Fail;

    fn modal(period: u16, value: i32) -> Response {
        Response { period, value }
    }

    fn pair(longer: u16, shorter: u16) -> [Response; 2] {
        [modal(longer, 300), modal(shorter, -400)]
    }

    fn accepted(items: &[Response]) -> bool {
        ResponseList::new(items).is_some()
    }

    fn combined<R: Rule>(rule: &R, items: &[Response]) -> Option<u32> {
        let held = ResponseList::new(items)?;
        Some(rule.combine(held.list()))
    }

    #[test]
    fn sizes_up_to_ten_million(rt: HostRuntime) {
        assert!(rt; accepted(&[modal(900, 6_000_000), modal(800, -4_000_000)]));
        assert!(rt; !accepted(&[modal(900, 6_000_000), modal(800, -4_000_001)]));
        assert!(rt; !accepted(&[modal(900, i32::MIN)]));
    }

    #[test]
    fn nine_values_at_most(rt: HostRuntime) {
        let ten = [
            modal(100, 1),
            modal(90, 1),
            modal(80, 1),
            modal(70, 1),
            modal(60, 1),
            modal(50, 1),
            modal(40, 1),
            modal(30, 1),
            modal(20, 1),
            modal(10, 1),
        ];
        assert!(rt; accepted(&ten[..0]));
        assert!(rt; accepted(&ten[..9]));
        assert!(rt; !accepted(&ten));
    }

    #[test]
    fn periods_fall(rt: HostRuntime) {
        assert!(rt; !accepted(&pair(500, 500)));
        assert!(rt; !accepted(&pair(500, 501)));
        assert!(rt; accepted(&pair(501, 500)));
        assert!(rt; accepted(&pair(2, 1)));
        assert!(rt; accepted(&pair(1, 0)));
        assert!(rt; !accepted(&pair(0, 0)));
    }

    #[test]
    fn each_rule(rt: HostRuntime) {
        let grouping = Grouping { rule: SumOfSquares };
        assert_eq!(rt; combined(&SumOfSquares, &pair(1000, 500)), Some(500));
        assert_eq!(rt; combined(&AbsoluteSum, &pair(1000, 500)), Some(700));
        assert_eq!(rt; combined(&grouping, &pair(1000, 500)), Some(500));
        assert_eq!(rt; combined(&grouping, &[]), Some(0));
    }

    #[test]
    fn close_at_a_tenth(rt: HostRuntime) {
        let grouping = Grouping { rule: SumOfSquares };
        assert_eq!(rt; combined(&grouping, &pair(1100, 1000)), Some(700));
        assert_eq!(rt; combined(&grouping, &pair(1101, 1000)), Some(500));
        assert_eq!(rt; combined(&grouping, &pair(1, 0)), Some(500));
    }

    #[test]
    fn each_neighbour_to_the_next(rt: HostRuntime) {
        let chain = [
            modal(1200, 3),
            modal(1100, -2),
            modal(1000, 2),
            modal(500, 24),
        ];
        let grouping = Grouping { rule: SumOfSquares };
        assert_eq!(rt; combined(&grouping, &chain), Some(25));
        assert_eq!(rt; combined(&Grouping { rule: grouping }, &chain), Some(25));
    }

    #[test]
    fn each_choice(rt: HostRuntime) {
        let apart = pair(1000, 500);
        let close = pair(1100, 1000);
        assert_eq!(rt; combined(&RuleChoice::SumOfSquares, &close), Some(500));
        assert_eq!(rt; combined(&RuleChoice::AbsoluteSum, &apart), Some(700));
        assert_eq!(rt;
            combined(&RuleChoice::GroupedSumOfSquares, &close),
            Some(700)
        );
        assert_eq!(rt;
            combined(&RuleChoice::GroupedAbsoluteSum, &apart),
            Some(700)
        );
    }

    #[test]
    fn by_number(rt: HostRuntime) {
        assert_eq!(rt; RuleChoice::try_from(0), Err(UnknownRule(0)));
        assert_eq!(rt; RuleChoice::try_from(1), Ok(RuleChoice::SumOfSquares));
        assert_eq!(rt; RuleChoice::try_from(2), Ok(RuleChoice::AbsoluteSum));
        assert_eq!(rt;
            RuleChoice::try_from(3),
            Ok(RuleChoice::GroupedSumOfSquares)
        );
        assert_eq!(rt; RuleChoice::try_from(4), Ok(RuleChoice::GroupedAbsoluteSum));
        assert_eq!(rt; RuleChoice::try_from(5), Err(UnknownRule(5)));
    }

    #[test]
    fn of_one_value(rt: HostRuntime) -> Result<(), Fail> {
        let Some(held) = ResponseList::new(&[modal(0, -7)]) else {
            return Err(Fail::new("refused"));
        };
        assert_eq!(rt; twice_grouped(held.list()), 7);
        assert_eq!(rt; combined_at_most_sum(&SumOfSquares, held.list()), 7);
        Ok(())
    }
}
