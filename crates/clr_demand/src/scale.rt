// Weights brought to a base.
ghost use Rattle.std.specs.Prelude.{◌≡◌, ◌≤◌, ◌<◌, ◌+◌, ◌*◌, ◌^◌, ℕ, length, map, sum};
ghost use Rattle.clr_demand.specs.Weights.{flat_row, scaled_row};

// The sum of a row.
pub(crate) fn sum_of_row(row: &[u32]) -> u64
    requires { length row.now ≤ 201 }
    ensures { result ≡ sum row.now }
{
    row.iter().map(|weight| u64::from(*weight)).sum()
}

// Multiplies each weight of a row.
fn multiply(row: &mut [u32], factor: u64)
    requires { sum row.old * factor < 2 ^ 32 }
    ensures { row.new ≡ map (λ weight. weight * factor) row.old }
{
    for index in 0..row.len() {
        row[index] = (u64::from(row[index]) * factor) as u32;
    }
}

// Brings the sum of a row to the base that it divides. A row of noughts stays as it is.
fn scale_row(row: &mut [u32], base: u32)
    requires { length row.old ≤ 201 }
    ensures { row.new ≡ scaled_row base row.old }
{
    let sum = sum_of_row(row);
    if sum == 0 {
        return;
    }
    multiply(row, u64::from(base) / sum);
}

// Brings the sum of each row of a table to the base.
fn scale_all(weights: &mut [u32], width: usize, base: u32)
    requires width { (1 ≤ width) × (width ≤ 201) }
    ensures { (row : ℕ) → (row + 1) * width ≤ length weights.old → flat_row width weights.new row ≡ scaled_row base (flat_row width weights.old row) }
{
    for row in 0..weights.len() / width {
        scale_row(&mut weights[row * width..(row + 1) * width], base);
    }
}

// The table with the sum of each row brought to the base.
pub(crate) fn scaled(mut weights: Vec<u32>, width: usize, base: u32) -> Vec<u32>
    requires width { (1 ≤ width) × (width ≤ 201) }
    ensures len { length result.items ≡ length weights.items }
    ensures rows { (row : ℕ) → (row + 1) * width ≤ length weights.items → flat_row width result.items row ≡ scaled_row base (flat_row width weights.items row) }
{
    scale_all(&mut weights, width, base);
    weights
}
