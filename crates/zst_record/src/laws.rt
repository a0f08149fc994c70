//! Laws of the records as contracts: each function does nothing, and its clause is the law.
ghost use Rattle.std.specs.Prelude.{◌≡◌, max};
ghost use Rattle.zst_model.specs.states.State.{largest_block, largest_spill};
ghost use Rattle.zst_record.specs.Formats.{longest_payload};
ghost use Rattle.zst_record.specs.Laws.{BeginIsDecoded, BeginIsStated, DecodedBegins, DecodedFits, FormatsAreDefined, PayloadHasLength, PayloadIsBounded, PayloadIsRead, PayloadIsWritten, RecordIsDecoded};

/// Law: the lengths and the words of BEGIN in code are those of the definitions.
pub fn formats_are_defined()
    ensures { FormatsAreDefined }
{}

/// The record of a BEGIN says that BEGIN.
pub fn begin_is_decoded()
    ensures { BeginIsDecoded }
{}

/// The record of any other head says that head, whatever its checksum.
pub fn record_is_decoded()
    ensures { RecordIsDecoded }
{}

/// The payload of a record that passes its checks is whole words and no longer than the longest
/// block or spill block.
#[tactic(auto, unfolding(zst_model::specs::states::State::largest_block))]
pub fn payload_is_bounded()
    ensures bounded { PayloadIsBounded }
    ensures longest { longest_payload ≡ max largest_block largest_spill }
{}

/// What passes its checks fits its stream: in the first place it is a BEGIN, and in any other another record.
pub fn decoded_fits()
    ensures first { DecodedBegins }
    ensures later { DecodedFits }
{}

/// The header of a BEGIN without a payload can be stated, where its name is bytes.
pub fn begin_is_stated()
    ensures { BeginIsStated }
{}

/// The payload that is written for a header is read as that header, over what the 312 bytes say.
pub fn payload_is_read()
    ensures { PayloadIsRead }
{}

/// A payload that is accepted is the one that its header writes, or one that its stream doesn't need and that says nothing.
pub fn payload_is_written()
    ensures { PayloadIsWritten }
{}

/// A payload has a length that BEGIN can state, and is empty exactly where the stream has none.
pub fn payload_has_length()
    ensures { PayloadHasLength }
{}
