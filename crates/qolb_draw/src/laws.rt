//! Theorems about pictures. Each theorem is the contract of a function that does nothing.
ghost use Rattle.qolb_draw.specs.Laws.{BarsCoverMarks, DrawnAsReplayed, ShapesLieWithin};
ghost use Rattle.qolb_draw.specs.StepLaws.{BarsCoverPoints, StepShapesLieWithin};

/// States that a drawn line has the states of a replay of the script.
pub fn drawn_as_replayed()
    ensures { DrawnAsReplayed }
{}

/// States that the bars of a timeline match the marks of the nodes.
///
/// Over each command, a node has one bar of the kind of its mark, or no bar if the mark has none.
pub fn bars_cover_marks()
    ensures { BarsCoverMarks }
{}

/// States that no shape of a line lies outside the picture or in the next line.
pub fn shapes_lie_within()
    ensures { ShapesLieWithin }
{}

/// States that the bars in the picture of a step script show the points of the nodes.
///
/// Over each event, from the node's own first event on, a node has one bar, which shows the node's point after the
/// event.
pub fn bars_cover_points()
    ensures { BarsCoverPoints }
{}

/// States that no shape of a step script lies outside its picture.
pub fn step_shapes_lie_within()
    ensures { StepShapesLieWithin }
{}
