use crate::{PlainTags, TagAnswer, TagCall, TagPool, TagState, Tags, run_tags};
use oi_base::Tag;
use std::process::Abort;
use std::test::Fail;

const CALLS: [TagCall; 11] = [
    TagCall::Reset { age: 0 },
    TagCall::Take,
    TagCall::Take,
    TagCall::Take,
    TagCall::End { tag: Tag(1) },
    TagCall::End { tag: Tag(0) },
    TagCall::Reap { tag: Tag(1) },
    TagCall::Reap { tag: Tag(0) },
    TagCall::Take,
    TagCall::Take,
    TagCall::Reap { tag: Tag(0) },
];

const ANSWERS: [TagAnswer; 11] = [
    TagAnswer::Done,
    TagAnswer::Given(Some(Tag(0))),
    TagAnswer::Given(Some(Tag(1))),
    TagAnswer::Given(None),
    TagAnswer::Done,
    TagAnswer::Done,
    TagAnswer::Done,
    TagAnswer::Done,
    TagAnswer::Given(Some(Tag(1))),
    TagAnswer::Given(Some(Tag(0))),
    TagAnswer::Refused,
];

#[test]
fn tag_pools_agree(rt: HostRuntime) -> Result<(), Fail> {
    let mut tags = Tags::new(rt.alloc(), 2)?;
    let answers = run_tags(rt.alloc(), &mut tags, CALLS.as_slice())?;
    assert_eq!(rt; answers.as_slice(), ANSWERS.as_slice());
    let mut plain = PlainTags::new(rt.alloc(), 2)?;
    let answers = run_tags(rt.alloc(), &mut plain, CALLS.as_slice())?;
    assert_eq!(rt; answers.as_slice(), ANSWERS.as_slice());
    Ok(())
}

fn tell<P: TagPool>(rt: &impl Abort, pool: &mut P) {
    pool.reset(15);
    assert_eq!(rt; pool.take(), Some(Tag(0xf000_0000)));
    for (tag, state) in [
        (Tag(0xf000_0000), TagState::Live),
        (Tag(0xf000_0001), TagState::Free),
        (Tag(0xf000_0002), TagState::Foreign),
        (Tag(0x0000_0001), TagState::Foreign),
        (Tag(0xf800_0000), TagState::Foreign),
        (Tag::RESERVED, TagState::Foreign),
    ] {
        assert_eq!(rt; pool.state(tag), state);
    }
}

#[test]
fn tags_of_an_age(rt: HostRuntime) -> Result<(), Fail> {
    tell(&rt, &mut Tags::new(rt.alloc(), 2)?);
    tell(&rt, &mut PlainTags::new(rt.alloc(), 2)?);
    Ok(())
}
