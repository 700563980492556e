// What is asked of all 32 domains of a subproblem at once: loops of a fixed number of turns with no way out, so that the machine takes eight masks at once.
ghost use Rattle.std.specs.Prelude.{◌≡◌, cond};
ghost use Rattle.splits.specs.AtOnce.{lost};
ghost use Rattle.splits.specs.Calls.{Few, Values, Loses, Outside, Outsides, Filled};

// The number of values of a domain.
pub fn count(domain: u16) -> u16
    ensures { Few domain result }
{
    domain.count_ones() as u16
}

// The number of values in all domains.
pub fn values(domains: [u16; 32]) -> u16
    ensures { Values domains result }
{
    let mut sum = 0;
    for domain in &domains {
        sum += count(*domain);
    }
    sum
}

// Whether a domain loses all its values where it is cut to a mask: 1 if so, else 0.
fn loss(domain: u16, mask: u16) -> u16
    ensures { result ≡ cond (lost domain mask) 1 0 }
{
    u16::from(domain != 0 && domain & mask == 0)
}

// Whether one does, each cut to its own.
pub fn loses(domains: [u16; 32], row: [u16; 32]) -> bool
    ensures { Loses domains row result }
{
    let mut lost = 0;
    for i in 0..32 {
        lost |= loss(domains[i], row[i]);
    }
    lost != 0
}

// The values of a domain outside a mask.
pub fn outside(domain: u16, mask: u16) -> u16
    ensures { Outside domain mask result }
{
    domain & !mask
}

// The values of each domain outside its own mask.
pub fn outsides(mut domains: [u16; 32], row: [u16; 32]) -> [u16; 32]
    ensures { Outsides domains row result }
{
    for i in 0..32 {
        domains[i] = outside(domains[i], row[i]);
    }
    domains
}

// How many of the masks have values.
pub fn filled(out: [u16; 32]) -> u16
    ensures { Filled out result }
{
    let mut sum = 0;
    for mask in &out {
        sum += u16::from(*mask != 0);
    }
    sum
}
