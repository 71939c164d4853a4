// What holds of every record at once.
ghost use Rattle.avs_code.specs.ConfigHeader.{IsConfigHeader};
ghost use Rattle.avs_code.specs.GroupBlock.{IsGroupBlock};
ghost use Rattle.avs_code.specs.Header.{IsEntryHeader, IsLandHeader};
ghost use Rattle.avs_code.specs.Label.{IsLabel};
ghost use Rattle.avs_code.specs.QueueHeader.{IsQueueHeader};
ghost use Rattle.avs_code.specs.Rules.{OneSpelling};

/// A law: one block stands for one value, and one value has one block. It makes no call.
pub fn one_spelling()
    ensures label { OneSpelling IsLabel }
    ensures group_block { OneSpelling IsGroupBlock }
    ensures land_header { OneSpelling IsLandHeader }
    ensures entry_header { OneSpelling IsEntryHeader }
    ensures queue_header { OneSpelling IsQueueHeader }
    ensures config_header { OneSpelling IsConfigHeader }
{}
