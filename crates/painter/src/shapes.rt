// The words of the picture's shapes: pieces of svg. `tests/page` holds them to the records.
use pictures::Shape;
use text::Page;
use text::phrases::Phrase;

// A shape in its words, with a number in the place of each `#`. The label of a line has words of its own.
fn words(shape: Shape) -> &'static [u8] {
    match shape {
        Shape::RotationBegin => b"",
        Shape::LineBegin => b"<svg xmlns=\"http://www.w3.org/2000/svg\" viewBox=\"0 0 # #\">\n",
        Shape::BoundMark => b"<line class=\"b\" x1=\"#\" y1=\"0\" x2=\"#\" y2=\"#\"/>\n",
        Shape::VisitBegin =>
            b"<g><title>record #: station # start # limit # synchronous # asynchronous #</title>\n",
        Shape::ThroughBegin =>
            b"<g><title>record #: station # (through) start # limit # synchronous # asynchronous #</title>\n",
        Shape::MarkBegin => b"<g><title>record #: mark of station #, #</title>\n",
        Shape::Tick => b"<line class=\"v\" x1=\"#\" y1=\"#\" x2=\"#\" y2=\"#\"/>\n",
        Shape::ThroughTick => b"<line class=\"m\" x1=\"#\" y1=\"0\" x2=\"#\" y2=\"#\"/>\n",
        Shape::Number => b"<text x=\"#\" y=\"#\" font-size=\"#\">#</text>\n",
        Shape::TightNumber => b"<text class=\"t\" x=\"#\" y=\"#\" font-size=\"#\">#</text>\n",
        Shape::ThroughNumber => b"<text x=\"#\" y=\"#\" font-size=\"#\">(#)</text>\n",
        Shape::TightThroughNumber =>
            b"<text class=\"t\" x=\"#\" y=\"#\" font-size=\"#\">(#)</text>\n",
        Shape::Synchronous => b"<rect class=\"s\" x=\"#\" y=\"#\" width=\"#\" height=\"#\"/>\n",
        Shape::Asynchronous => b"<rect class=\"a\" x=\"#\" y=\"#\" width=\"#\" height=\"#\"/>\n",
        Shape::Walk => b"<line class=\"w\" x1=\"#\" y1=\"#\" x2=\"#\" y2=\"#\"/>\n",
        Shape::Limit => b"<line class=\"l\" x1=\"#\" y1=\"#\" x2=\"#\" y2=\"#\"/>\n",
        Shape::Cut => b"<path class=\"c\" d=\"M# #V#L# #Z\"/>\n",
        Shape::Frame =>
            b"<rect class=\"f\" fill=\"none\" x=\"#\" y=\"#\" width=\"#\" height=\"#\"/>\n",
        Shape::RecordEnd => b"</g>\n",
        Shape::RotationEnd => b"</svg>\n</figure>\n",
    }
}

// Puts a part into a page.
pub(crate) fn put_part(page: &mut Page, part: Phrase<Shape>) {
    page.put_filled(words(part.form), part.numbers);
}

// The label of a line that a record begins: the rotation's number, and the record's, which its own beginning has.
pub(crate) fn put_label(page: &mut Page, label: Phrase<Shape>, record: Phrase<Shape>) {
    let Shape::RotationBegin = label.form else {
        return;
    };
    page.put_filled(
        b"<figure>\n<figcaption>rotation #, from record #</figcaption>\n",
        [label.numbers[0], record.numbers[0], 0, 0, 0, 0],
    );
}
