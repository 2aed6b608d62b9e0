// The 64 cells of a logarithm's fraction, as a `match`, which becomes read-only tables.
// A type of its own beside the powers' cells: their numbers are others, each with its table's laws.
ghost use Rattle.std.specs.Prelude.{◌≡◌, ◌<◌};
ghost use Rattle.elementary.specs.LogCells.{log_top, log_slope, log_bend};

#[derive(Clone, Copy)]
pub struct Cell {
    pub top: u64,
    pub slope: u64,
    pub bend: u64,
}

pub fn cell_of(i: u64) -> Cell
    requires { i < 64 }
    ensures { (result.top ≡ log_top i) × (result.slope ≡ log_slope i) × (result.bend ≡ log_bend i) }
{
    match i {
        0 => Cell {
            top: 103152374005076112,
            slope: 780887598453,
            bend: 46597,
        },
        1 => Cell {
            top: 204730858882238466,
            slope: 769062120683,
            bend: 45135,
        },
        2 => Cell {
            top: 304781732841826263,
            slope: 757584501639,
            bend: 43788,
        },
        3 => Cell {
            top: 403350323771278801,
            slope: 746444528674,
            bend: 42500,
        },
        4 => Cell {
            top: 500479904947375169,
            slope: 735627412206,
            bend: 41268,
        },
        5 => Cell {
            top: 596211885498992922,
            slope: 725119265435,
            bend: 40089,
        },
        6 => Cell {
            top: 690585916066302530,
            slope: 714907039873,
            bend: 38960,
        },
        7 => Cell {
            top: 783640004260084406,
            slope: 704978728465,
            bend: 37877,
        },
        8 => Cell {
            top: 875410520272804187,
            slope: 695322000770,
            bend: 36840,
        },
        9 => Cell {
            top: 965932436786840218,
            slope: 685926512581,
            bend: 35844,
        },
        10 => Cell {
            top: 1055239253931694627,
            slope: 676781501013,
            bend: 34888,
        },
        11 => Cell {
            top: 1143363159491510562,
            slope: 667877053228,
            bend: 33970,
        },
        12 => Cell {
            top: 1230335081182986842,
            slope: 659203805620,
            bend: 33088,
        },
        13 => Cell {
            top: 1316184768817302573,
            slope: 650753170307,
            bend: 32239,
        },
        14 => Cell {
            top: 1400940786426661654,
            slope: 642516253636,
            bend: 31423,
        },
        15 => Cell {
            top: 1484630655187022255,
            slope: 634485136487,
            bend: 30638,
        },
        16 => Cell {
            top: 1567280889722641985,
            slope: 626652583990,
            bend: 29881,
        },
        17 => Cell {
            top: 1648916979594367466,
            slope: 619010970906,
            bend: 29152,
        },
        18 => Cell {
            top: 1729563505184833929,
            slope: 611553306051,
            bend: 28450,
        },
        19 => Cell {
            top: 1809244182042818854,
            slope: 604273209893,
            bend: 27773,
        },
        20 => Cell {
            top: 1887981885426707340,
            slope: 597164631610,
            bend: 27119,
        },
        21 => Cell {
            top: 1965798638050960709,
            slope: 590221043333,
            bend: 26489,
        },
        22 => Cell {
            top: 2042715767358826105,
            slope: 583437257151,
            bend: 25880,
        },
        23 => Cell {
            top: 2118753837347925869,
            slope: 576807835520,
            bend: 25291,
        },
        24 => Cell {
            top: 2193932681501879403,
            slope: 570327075656,
            bend: 24723,
        },
        25 => Cell {
            top: 2268271519782520801,
            slope: 563990305697,
            bend: 24174,
        },
        26 => Cell {
            top: 2341788936467995470,
            slope: 557793084694,
            bend: 23642,
        },
        27 => Cell {
            top: 2414502856387056624,
            slope: 551730403500,
            bend: 23128,
        },
        28 => Cell {
            top: 2486430657089612100,
            slope: 545797983619,
            bend: 22631,
        },
        29 => Cell {
            top: 2557589159356949595,
            slope: 539991741833,
            bend: 22150,
        },
        30 => Cell {
            top: 2627994667934810187,
            slope: 534308041955,
            bend: 21683,
        },
        31 => Cell {
            top: 2697662907956595840,
            slope: 528742374387,
            bend: 21232,
        },
        32 => Cell {
            top: 2766609200726572841,
            slope: 523291706284,
            bend: 20794,
        },
        33 => Cell {
            top: 2834848346362770657,
            slope: 517952375851,
            bend: 20369,
        },
        34 => Cell {
            top: 2902394677219225654,
            slope: 512720608599,
            bend: 19958,
        },
        35 => Cell {
            top: 2969262144709351160,
            slope: 507593558366,
            bend: 19559,
        },
        36 => Cell {
            top: 3035464250612010646,
            slope: 502567989508,
            bend: 19172,
        },
        37 => Cell {
            top: 3101014114969068826,
            slope: 497641056660,
            bend: 18796,
        },
        38 => Cell {
            top: 3165924457285265878,
            slope: 492809774163,
            bend: 18431,
        },
        39 => Cell {
            top: 3230207645697491562,
            slope: 488071534442,
            bend: 18076,
        },
        40 => Cell {
            top: 3293875659535597348,
            slope: 483423315998,
            bend: 17732,
        },
        41 => Cell {
            top: 3356940188654179477,
            slope: 478862988870,
            bend: 17397,
        },
        42 => Cell {
            top: 3419412543157132045,
            slope: 474387736823,
            bend: 17072,
        },
        43 => Cell {
            top: 3481303751502985522,
            slope: 469995363378,
            bend: 16756,
        },
        44 => Cell {
            top: 3542624520611128942,
            slope: 465683500966,
            bend: 16449,
        },
        45 => Cell {
            top: 3603385281334820137,
            slope: 461450131037,
            bend: 16150,
        },
        46 => Cell {
            top: 3663596164713031905,
            slope: 457293055828,
            bend: 15859,
        },
        47 => Cell {
            top: 3723267046464677074,
            slope: 453210418909,
            bend: 15575,
        },
        48 => Cell {
            top: 3782407487955717206,
            slope: 449199653083,
            bend: 15300,
        },
        49 => Cell {
            top: 3841026882894349165,
            slope: 445259574172,
            bend: 15031,
        },
        50 => Cell {
            top: 3899134294389772992,
            slope: 441387756428,
            bend: 14770,
        },
        51 => Cell {
            top: 3956738618040030196,
            slope: 437582888805,
            bend: 14515,
        },
        52 => Cell {
            top: 4013848469782386279,
            slope: 433842937112,
            bend: 14267,
        },
        53 => Cell {
            top: 4070472279554759714,
            slope: 430166452021,
            bend: 14025,
        },
        54 => Cell {
            top: 4126618230013335156,
            slope: 426551517935,
            bend: 13790,
        },
        55 => Cell {
            top: 4182294349554157575,
            slope: 422997061252,
            bend: 13560,
        },
        56 => Cell {
            top: 4237508416066309996,
            slope: 419501275210,
            bend: 13336,
        },
        57 => Cell {
            top: 4292268049376724184,
            slope: 416062928385,
            bend: 13117,
        },
        58 => Cell {
            top: 4346580648813687400,
            slope: 412680314037,
            bend: 12904,
        },
        59 => Cell {
            top: 4400453467951820824,
            slope: 409352296685,
            bend: 12696,
        },
        60 => Cell {
            top: 4453893586038210761,
            slope: 406077785932,
            bend: 12492,
        },
        61 => Cell {
            top: 4506907862007506591,
            slope: 402854948231,
            bend: 12294,
        },
        62 => Cell {
            top: 4559503042895213478,
            slope: 399682778024,
            bend: 12101,
        },
        _ => Cell {
            top: 4611685717424575325,
            slope: 396560309678,
            bend: 11912,
        },
    }
}
