// A picture compared with what became of it: 'Trial'.
ghost use Rattle.std.specs.Prelude.{◌≡◌, ◌+◌, ◌<◌, ◌^◌, ◌∷◌, [], drop, length};
ghost use Rattle.xs_layout.specs.Geometry.{components_of};
ghost use Rattle.xs_params.specs.Picture.{IsPicture, plane_first};
ghost use Rattle.xs_trial.specs.Comparison.{compared, comparison_of};

use xs_params::Planes;

/// How two pictures differ.
#[derive(Clone, Copy, Debug, PartialEq, Eq)]
pub struct Comparison {
    /// The greatest difference of two samples that stand at one place.
    pub worst: u32,
    /// The sum of the second picture's samples.
    pub sum: u64,
}

/// Compares a picture with another of its shape.
pub fn compare(picture: &Planes, other: &Planes) -> Comparison
    requires { picture.now.shape ≡ other.now.shape }
    ensures { result ≡ comparison_of picture.now.samples other.now.samples }
{
    known_picture(picture);
    known_picture(other);
    let mut found = Comparison { worst: 0, sum: 0 };
    'components: for component in 0..picture.shape().format.components() {
        found = compare_planes(picture, other, component, found);
    }
    found
}

/// Goes on with the samples of a component.
fn compare_planes(
    picture: &Planes,
    other: &Planes,
    component: u32,
    before: Comparison,
) -> Comparison
    requires shape { picture.now.shape ≡ other.now.shape }
    requires component { component < components_of picture.now.shape.format }
    requires small { (compared before (drop (plane_first picture.now.shape component) picture.now.samples) (drop (plane_first picture.now.shape component) other.now.samples)).sum < 2 ^ 64 }
    ensures { compared result (drop (plane_first picture.now.shape (component + 1)) picture.now.samples) (drop (plane_first picture.now.shape (component + 1)) other.now.samples)
        ≡ compared before (drop (plane_first picture.now.shape component) picture.now.samples) (drop (plane_first picture.now.shape component) other.now.samples) }
{
    known_picture(picture);
    known_picture(other);
    let height = picture.shape().height;
    let mut found = before;
    'rows: for row in 0..height {
        found = compare_rows(
            picture.row(component, row),
            other.row(component, row),
            found,
        );
    }
    found
}

/// Goes on with the samples of a row.
fn compare_rows(row: &[u16], other: &[u16], before: Comparison) -> Comparison
    requires size { length row.now ≡ length other.now }
    requires small { (compared before row.now other.now).sum < 2 ^ 64 }
    ensures { result ≡ compared before row.now other.now }
{
    let mut found = before;
    'columns: for column in 0..row.len() {
        found = one_more(found, row[column], other[column]);
    }
    found
}

/// Goes on with one sample.
fn one_more(before: Comparison, sample: u16, other: u16) -> Comparison
    requires { before.sum + other < 2 ^ 64 }
    ensures { result ≡ compared before (sample ∷ []) (other ∷ []) }
{
    Comparison {
        worst: before.worst.max(u32::from(sample.abs_diff(other))),
        sum: before.sum + u64::from(other),
    }
}

// What is true of each picture.
fn known_picture(planes: &Planes)
    ensures { IsPicture planes.now }
{
    let _shape = planes.shape();
}
