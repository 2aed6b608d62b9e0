// The 64 cells of a power's fraction, as a `match`, which becomes read-only tables.
// A type of its own beside the logarithm's cells: their numbers are others, each with its table's laws.
ghost use Rattle.std.specs.Prelude.{◌≡◌, ◌<◌};
ghost use Rattle.powers.specs.PowerCells.{power_start, power_slope, power_bend};

#[derive(Clone, Copy)]
pub struct Cell {
    pub start: u64,
    pub slope: u64,
    pub bend: u64,
}

pub fn cell_of(i: u64) -> Cell
    requires { i < 64 }
    ensures { (result.start ≡ power_start i) × (result.slope ≡ power_slope i) × (result.bend ≡ power_bend i) }
{
    match i {
        0 => Cell {
            start: 4611686018427387904,
            slope: 744253813,
            bend: 4052226,
        },
        1 => Cell {
            start: 4661903986662671290,
            slope: 752358206,
            bend: 4096352,
        },
        2 => Cell {
            start: 4712668792719003884,
            slope: 760550850,
            bend: 4140958,
        },
        3 => Cell {
            start: 4763986391269842979,
            slope: 768832705,
            bend: 4186050,
        },
        4 => Cell {
            start: 4815862801830788490,
            slope: 777204745,
            bend: 4231634,
        },
        5 => Cell {
            start: 4868304109465667592,
            slope: 785667949,
            bend: 4277713,
        },
        6 => Cell {
            start: 4921316465500308116,
            slope: 794223313,
            bend: 4324294,
        },
        7 => Cell {
            start: 4974906088244084429,
            slope: 802871837,
            bend: 4371383,
        },
        8 => Cell {
            start: 5029079263719320435,
            slope: 811614538,
            bend: 4418984,
        },
        9 => Cell {
            start: 5083842346398635251,
            slope: 820452441,
            bend: 4467104,
        },
        10 => Cell {
            start: 5139201759950318048,
            slope: 829386583,
            bend: 4515747,
        },
        11 => Cell {
            start: 5195163997991819502,
            slope: 838418010,
            bend: 4564920,
        },
        12 => Cell {
            start: 5251735624851448219,
            slope: 847547784,
            bend: 4614629,
        },
        13 => Cell {
            start: 5308923276338361494,
            slope: 856776974,
            bend: 4664879,
        },
        14 => Cell {
            start: 5366733660520940721,
            slope: 866106664,
            bend: 4715676,
        },
        15 => Cell {
            start: 5425173558513642752,
            slope: 875537947,
            bend: 4767027,
        },
        16 => Cell {
            start: 5484249825272419512,
            slope: 885071930,
            bend: 4818936,
        },
        17 => Cell {
            start: 5543969390398799154,
            slope: 894709732,
            bend: 4871411,
        },
        18 => Cell {
            start: 5604339258952723100,
            slope: 904452482,
            bend: 4924457,
        },
        19 => Cell {
            start: 5665366512274234280,
            slope: 914301324,
            bend: 4978081,
        },
        20 => Cell {
            start: 5727058308814112983,
            slope: 924257412,
            bend: 5032289,
        },
        21 => Cell {
            start: 5789421884973557729,
            slope: 934321916,
            bend: 5087087,
        },
        22 => Cell {
            start: 5852464555953009676,
            slope: 944496014,
            bend: 5142482,
        },
        23 => Cell {
            start: 5916193716610220111,
            slope: 954780901,
            bend: 5198479,
        },
        24 => Cell {
            start: 5980616842327661685,
            slope: 965177784,
            bend: 5255087,
        },
        25 => Cell {
            start: 6045741489889385141,
            slope: 975687881,
            bend: 5312311,
        },
        26 => Cell {
            start: 6111575298367424380,
            slope: 986312425,
            bend: 5370159,
        },
        27 => Cell {
            start: 6178125990017853852,
            slope: 997052663,
            bend: 5428636,
        },
        28 => Cell {
            start: 6245401371186603363,
            slope: 1007909855,
            bend: 5487750,
        },
        29 => Cell {
            start: 6313409333225136570,
            slope: 1018885274,
            bend: 5547507,
        },
        30 => Cell {
            start: 6382157853416100552,
            slope: 1029980207,
            bend: 5607916,
        },
        31 => Cell {
            start: 6451654995909055045,
            slope: 1041195956,
            bend: 5668982,
        },
        32 => Cell {
            start: 6521908912666391106,
            slope: 1052533837,
            bend: 5730713,
        },
        33 => Cell {
            start: 6592927844419550153,
            slope: 1063995179,
            bend: 5793117,
        },
        34 => Cell {
            start: 6664720121635655541,
            slope: 1075581326,
            bend: 5856200,
        },
        35 => Cell {
            start: 6737294165494670078,
            slope: 1087293639,
            bend: 5919969,
        },
        36 => Cell {
            start: 6810658488877194079,
            slope: 1099133491,
            bend: 5984434,
        },
        37 => Cell {
            start: 6884821697363019841,
            slope: 1111102270,
            bend: 6049600,
        },
        38 => Cell {
            start: 6959792490240559659,
            slope: 1123201380,
            bend: 6115476,
        },
        39 => Cell {
            start: 7035579661527265796,
            slope: 1135432241,
            bend: 6182069,
        },
        40 => Cell {
            start: 7112192101001162095,
            slope: 1147796288,
            bend: 6249387,
        },
        41 => Cell {
            start: 7189638795243608238,
            slope: 1160294970,
            bend: 6317438,
        },
        42 => Cell {
            start: 7267928828693418961,
            slope: 1172929754,
            bend: 6386231,
        },
        43 => Cell {
            start: 7347071384712461870,
            slope: 1185702121,
            bend: 6455772,
        },
        44 => Cell {
            start: 7427075746662858866,
            slope: 1198613571,
            bend: 6526071,
        },
        45 => Cell {
            start: 7507951298995917514,
            slope: 1211665617,
            bend: 6597135,
        },
        46 => Cell {
            start: 7589707528352920109,
            slope: 1224859790,
            bend: 6668973,
        },
        47 => Cell {
            start: 7672354024677899536,
            slope: 1238197639,
            bend: 6741594,
        },
        48 => Cell {
            start: 7755900482342532474,
            slope: 1251680727,
            bend: 6815005,
        },
        49 => Cell {
            start: 7840356701283281883,
            slope: 1265310637,
            bend: 6889216,
        },
        50 => Cell {
            start: 7925732588150922155,
            slope: 1279088966,
            bend: 6964234,
        },
        51 => Cell {
            start: 8012038157472581778,
            slope: 1293017332,
            bend: 7040070,
        },
        52 => Cell {
            start: 8099283532826439817,
            slope: 1307097367,
            bend: 7116731,
        },
        53 => Cell {
            start: 8187478948029213993,
            slope: 1321330725,
            bend: 7194227,
        },
        54 => Cell {
            start: 8276634748336579668,
            slope: 1335719073,
            bend: 7272567,
        },
        55 => Cell {
            start: 8366761391656660532,
            slope: 1350264100,
            bend: 7351760,
        },
        56 => Cell {
            start: 8457869449776733335,
            slope: 1364967512,
            bend: 7431816,
        },
        57 => Cell {
            start: 8549969609603290562,
            slope: 1379831034,
            bend: 7512743,
        },
        58 => Cell {
            start: 8643072674415606502,
            slope: 1394856408,
            bend: 7594551,
        },
        59 => Cell {
            start: 8737189565132953757,
            slope: 1410045399,
            bend: 7677250,
        },
        60 => Cell {
            start: 8832331321595618838,
            slope: 1425399787,
            bend: 7760850,
        },
        61 => Cell {
            start: 8928509103859867100,
            slope: 1440921373,
            bend: 7845360,
        },
        62 => Cell {
            start: 9025734193507008925,
            slope: 1456611978,
            bend: 7930791,
        },
        _ => Cell {
            start: 9124017994966720698,
            slope: 1472473442,
            bend: 8017151,
        },
    }
}
