//! What ties the writer to the images of streams.
ghost use Rattle.zst_writer.specs.Laws.{ImageIsPut};

/// Who puts BEGIN, the pieces of a stream and END writes the image of the stream.
pub fn image_is_put()
    ensures { ImageIsPut }
{}
