//! What the bytes of a stream say: its reading, its image, and the laws that tie them.
#![tactic(auto)]

ghost use Rattle.zst_stream.specs.Example.{ExampleCanBeSent, ExampleIsStream};
ghost use Rattle.zst_stream.specs.Records.{ItemsFit, TextIsBytes};
ghost use Rattle.zst_stream.specs.Items.{ItemsAreRead, PayloadsFit, SentIsAllowed, ViewIsStream, ViewIsRead, FirstItems};
ghost use Rattle.zst_stream.specs.NearItems.{ItemsAreNear};
ghost use Rattle.zst_stream.specs.Laws.{FrontsAgree, FaultsAreFound, ImageIsRead, FrontIsRead, CoversArePieces, FirstPieces, PieceGoesOn};
ghost use Rattle.zst_stream.specs.PassedRecords.{CoveredFit, CoveredInOrder};
ghost use Rattle.zst_stream.specs.CheckedOutcomes.{OutcomesAreChecked};

mod item_ref;

pub use item_ref::{ItemRef, head_of, pad_bonus};

/// However a text goes on, the reading of a front of it is a front of its reading.
pub fn fronts_agree()
    ensures { FrontsAgree }
{}

/// What a reading refuses is in the stream itself, and never that the input is cut.
pub fn faults_are_found()
    ensures { FaultsAreFound }
{}

/// The fault that a reading tells is that of the first check that fails, by the tables, at the first record that fails one;
/// where it tells none each record passes all.
pub fn outcomes_are_checked()
    ensures { OutcomesAreChecked }
{}

/// What is covered of bytes passed its checks: each record fits its stream, and its payload is as long as it says.
pub fn covered_fit()
    ensures { CoveredFit }
{}

/// The covered records of bytes are BEGIN, then other records, and END at most as the last.
pub fn covered_in_order()
    ensures { CoveredInOrder }
{}

/// An image is read as BEGIN, its pieces and END.
pub fn image_is_read()
    ensures { ImageIsRead }
{}

/// Of a front of an image a front of these records is covered, and no check fails.
pub fn front_is_read()
    ensures { FrontIsRead }
{}

/// The records of an image are BEGIN, its pieces in their order, and END.
pub fn covers_are_pieces()
    ensures { CoversArePieces }
{}

/// Of a front of an image the first pieces are covered: the reading waits, or all is covered.
pub fn first_pieces_are_covered()
    ensures { FirstPieces }
{}

/// A writer that has a text and goes on by its next piece still writes the image.
pub fn piece_goes_on()
    ensures { PieceGoesOn }
{}

/// Streams of which these laws speak exist: a small one is among them.
pub fn example_is_a_stream()
    ensures { ExampleIsStream }
{}

/// So do views that can be sent: that of a snapshot without objects is one.
pub fn example_can_be_sent()
    ensures { ExampleCanBeSent }
{}

/// Each item of a lawful snapshot's view fits a record, whatever is chosen, as far as the features allow it.
pub fn items_fit()
    ensures { ItemsFit }
{}

/// The text of a lawful snapshot's view is bytes, where its header's name is.
pub fn text_is_bytes()
    ensures { TextIsBytes }
{}

/// What is written of items is read as these items.
pub fn items_are_read()
    ensures { ItemsAreRead }
{}

/// The items of a view of a lawful snapshot are a stream's, as far as its header allows them.
pub fn view_is_a_stream()
    ensures { ViewIsStream }
{}

/// Its text is read to its end, and says exactly the view's items.
pub fn view_is_read()
    ensures { ViewIsRead }
{}

/// A front of its text says a front of the view's items.
pub fn first_items_are_read()
    ensures { FirstItems }
{}

/// The payload of an item whose record fits is whole words, and as long as the record says.
pub fn payloads_fit()
    ensures { PayloadsFit }
{}

/// A stream that may have REDACT allows every item, and any other the items of what no redaction touches.
pub fn sent_is_allowed()
    ensures { SentIsAllowed }
{}

/// No WRITE or REDACT of the view of a lawful snapshot ends past index 2^43 of its object.
pub fn items_are_near()
    ensures { ItemsAreNear }
{}
