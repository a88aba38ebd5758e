// What a line of a list of calls says.
use crate::case::CaseRule;
use crate::told::{Refusal, Told};
use anyhow::{Context, anyhow};
use combination::{Grouping, RuleChoice};
use sheet::{Call, ModeShape};
use spectra::curve::{SiteCurve, Step};
use standard::fault::Layer;
use standard::site::Site;
use standard::values::SiteValues;
use std::alloc::Global;
use std::error::Error;
use std::str::FromStr;

#[derive(Drop)]
pub enum Line {
    Site(Site),
    Curve(SiteCurve),
    Rule(CaseRule),
    Call(Call),
    Told(Told),
    End,
    // what asks for nothing: it divides a case for its reader, or names the code's curve, which a case has anyway
    Other,
}

// A line by its words.
pub fn read_line(heap: Global, words: &[&str]) -> anyhow::Result<Line> {
    Ok(match words {
        ["site", values @ ..] => Line::Site(site(values)?),
        ["curve", "code", ..] => Line::Other,
        ["curve", steps @ ..] => Line::Curve(curve(heap, steps)?),
        ["rule", names @ ..] => Line::Rule(rule(names)),
        ["refused", words @ ..] => Line::Told(refused(words)?),
        ["after", words @ ..] => Line::Told(after(words)?),
        ["end"] => Line::End,
        _ => call(words)?.map_or(Line::Other, Line::Call),
    })
}

// The number at a place.
fn number<T: FromStr>(words: &[&str], i: usize) -> anyhow::Result<T>
where
    T::Err: Error,
{
    let word = words.get(i).context("a number is missing")?;
    Ok(word.parse::<T>()?)
}

// `zone soil importance system formula plan base`
fn site(words: &[&str]) -> anyhow::Result<Site> {
    let values = SiteValues {
        zone: u8::try_from(number::<u64>(words, 0)?)?,
        soil: u8::try_from(number::<u64>(words, 1)?)?,
        importance: u8::try_from(number::<u64>(words, 2)?)?,
        system: u8::try_from(number::<u64>(words, 3)?)?,
        formula: u8::try_from(number::<u64>(words, 4)?)?,
        plan: u8::try_from(number::<u64>(words, 5)?)?,
        base: u16::try_from(number::<u64>(words, 6)?)?,
    };
    Site::accept(&values).map_err(|_| anyhow!("a stored site is refused"))
}

// `upper:thousandths ..`, 32 at most.
fn curve(heap: Global, words: &[&str]) -> anyhow::Result<SiteCurve> {
    let mut steps = Vec::new(heap);
    for word in words.iter().take(32) {
        let (upper, thousandths) = word.split_once(':').context("a step has no colon")?;
        steps.push(Step {
            upper: upper.parse::<u16>()?,
            thousandths: thousandths.parse::<u16>()?,
        })?;
    }
    let mut curve = SiteCurve::new();
    curve
        .fill(steps.as_slice())
        .map_err(|_| anyhow!("a stored curve is refused"))?;
    Ok(curve)
}

// A plain rule below up to three groupings: `grouping .. absolute` or `grouping .. srss`.
fn rule(names: &[&str]) -> CaseRule {
    let rule = match names {
        [.., "absolute"] => RuleChoice::AbsoluteSum,
        _ => RuleChoice::SumOfSquares,
    };
    let once = Grouping { rule };
    let twice = Grouping { rule: once };
    match names {
        [] | [_] => CaseRule::Plain(rule),
        [_, _] => CaseRule::Grouped(once),
        [_, _, _] => CaseRule::Twice(twice),
        _ => CaseRule::Thrice(Grouping { rule: twice }),
    }
}

// `call layer number place`
fn refused(words: &[&str]) -> anyhow::Result<Told> {
    Ok(Told::Refused {
        call: number(words, 0)?,
        refusal: Refusal {
            layer: words.get(1).and_then(|name| layer_of(name)),
            number: number(words, 2)?,
            place: number(words, 3)?,
        },
    })
}

// `call none`, or `call storey i: combined design force`
fn after(words: &[&str]) -> anyhow::Result<Told> {
    let call = number(words, 0)?;
    let Some(name) = words.get(2) else {
        return Ok(Told::Storeys { call });
    };
    let (storey, _) = name.split_once(':').context("a storey has no colon")?;
    let reading = (number(words, 3)?, number(words, 4)?, number(words, 5)?);
    Ok(Told::Storey {
        call,
        storey: storey.parse::<u8>()?,
        reading,
    })
}

fn layer_of(name: &str) -> Option<Layer> {
    match name {
        "record" => Some(Layer::Record),
        "sheet" => Some(Layer::Sheet),
        "method" => Some(Layer::Method),
        _ => None,
    }
}

// A call; none where the line is no call.
fn call(words: &[&str]) -> anyhow::Result<Option<Call>> {
    Ok(Some(match words {
        ["floor", words @ ..] => Call::Floor {
            height: u16::try_from(number::<u64>(words, 0)?)?,
            weight: u32::try_from(number::<u64>(words, 1)?)?,
        },
        ["reweigh", words @ ..] => Call::Reweigh {
            floor: u8::try_from(number::<u64>(words, 0)?)?,
            weight: u32::try_from(number::<u64>(words, 1)?)?,
        },
        ["mode", words @ ..] => Call::Mode {
            shape: shape(words)?,
        },
        ["strike", words @ ..] => Call::Strike {
            mode: u8::try_from(number::<u64>(words, 0)?)?,
        },
        ["static", ..] => Call::Static,
        ["modal", ..] => Call::Modal,
        _ => return Ok(None),
    }))
}

// `period ordinate ..`; of more ordinates than 40 only the count is kept.
fn shape(words: &[&str]) -> anyhow::Result<ModeShape> {
    let mut ordinates = [0; 40];
    for (ordinate, word) in ordinates.iter_mut().zip(words.iter().skip(1)) {
        *ordinate = i16::try_from(word.parse::<i64>()?)?;
    }
    Ok(ModeShape {
        period: u16::try_from(number::<u64>(words, 0)?)?,
        count: u8::try_from(words.len().saturating_sub(1))?,
        ordinates,
    })
}
