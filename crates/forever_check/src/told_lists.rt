//! The input lists that a text of releases without end tells. Nothing rests on them: what is read is
//! checked.
use std::alloc::{AllocError, Global};
use teg_net::{Again, DateList, InputList, Net, TransitionId};

// The list of these dates, which go on so; none where a word is none of its words.
fn going_list(
    alloc: Global,
    transition: TransitionId,
    dates: &[&str],
    period: &str,
    step: &str,
) -> Result<Option<InputList>, AllocError> {
    let (Ok(every), Ok(gap)) = (period.parse::<u32>(), step.parse::<u64>()) else {
        return Ok(None);
    };
    let mut told = Vec::new(alloc);
    for word in dates {
        let Ok(date) = word.parse::<u64>() else {
            return Ok(None);
        };
        told.push(date)?;
    }
    Ok(Some(InputList {
        transition,
        dates: DateList::new(told),
        again: Some(Again { every, gap }),
    }))
}

// The list of a line; none where it is none of such a text.
fn list_in(alloc: Global, net: &Net, line: &str) -> Result<Option<InputList>, AllocError> {
    let words: Vec<&str> = line.split_whitespace().collect(alloc)?;
    let ["input", name, told @ ..] = words.as_slice() else {
        return Ok(None);
    };
    let Some(transition) = net.find(name) else {
        return Ok(None);
    };
    match told {
        ["free"] => Ok(Some(InputList {
            transition,
            dates: DateList::new(Vec::new(alloc)),
            again: None,
        })),
        [dates @ .., "period", period, "step", step] => {
            let list = going_list(alloc, transition, dates, period, step)?;
            Ok(list)
        }
        _ => Ok(None),
    }
}

// The list of each line behind the first; none where a line is none of such a text.
pub(crate) fn lists_in(
    alloc: Global,
    net: &Net,
    text: &str,
) -> Result<Option<Vec<InputList>>, AllocError> {
    let lines: Vec<&str> = text.lines().collect(alloc)?;
    let [_, told @ ..] = lines.as_slice() else {
        return Ok(None);
    };
    let mut lists = Vec::new(alloc);
    for line in told {
        let Some(list) = list_in(alloc, net, line)? else {
            return Ok(None);
        };
        lists.push(list)?;
    }
    Ok(Some(lists))
}
