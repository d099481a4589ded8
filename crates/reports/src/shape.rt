// The quantities of a shape that the writer takes.
ghost use Rattle.quantities.specs.Shapes.{TakesShape, QuantitiesOf};

use crate::points;
use layout::Shape;
use quantities::ShapeQuantities;

pub fn quantities_of(shape: Shape) -> ShapeQuantities
    requires { TakesShape shape }
    ensures { QuantitiesOf shape result }
{
    let latitudes = shape.latitudes;
    let longitudes = shape.longitudes;
    let reported_latitudes = points::latitudes(latitudes, shape.count);
    let reported_longitudes = points::longitudes(longitudes, shape.count);
    let mut quantities = field_reports::outline(shape);
    quantities.latitudes = reported_latitudes;
    quantities.longitudes = reported_longitudes;
    quantities
}
