ghost use Rattle.oi_solo.specs.Reuse.{DataHaveTags, NoReuse};

/// In a permitted history the tag of data that wait to be sent is in use for their submission.
pub fn data_have_tags()
    ensures { DataHaveTags }
{}

/// In a permitted history no command goes out under a tag of which data wait to be sent.
pub fn no_tag_reuse_while_data_queued()
    ensures { NoReuse }
{}
