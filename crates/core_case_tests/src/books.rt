// The cases that several modules test by, and certificates of them.

/// One future, one scenario and one position, with one closing day.
pub const SMALL: &str =
    "core,1\nhouse,2024-01-01,1,2\nmarket,MKT\ninstr,IND,future,MKT,1,1,1\nlimit,IND,10\n\
    scenario,DOWN\npath,DOWN,IND,100,90,90\nposition,IND,10\nend\n";

/// All closed at a loss of 100.
pub const SMALL_CLOSING: &str =
    "cert,1\ncloses,1\namount,IND,position,1,10\nloss,100\nmargin,100\nweights,1\n\
    scenario,DOWN,2,1\nfull,IND,position,10\nend\n";

/// A limit of one contract too few.
pub const LIMIT_OF_NINE: &str =
    "core,1\nhouse,2024-01-01,1,2\nmarket,MKT\ninstr,IND,future,MKT,1,1,1\nlimit,IND,9\n\
    scenario,DOWN\npath,DOWN,IND,100,90,90\nposition,IND,10\nend\n";

/// Weights that refuse where the limit is too small.
pub const LIMIT_REFUSAL: &str =
    "cert,1\ncannot\nweights,1\nlimit,IND,1,1\nfull,IND,position,1\nend\n";

/// Weights that refuse where no day is left.
pub const NO_DAY_REFUSAL: &str = "cert,1\ncannot\nweights,1\nfull,IND,position,1\nend\n";

/// Two scenarios that are equally bad under the best calendar, which closes by ninths.
pub const TWO_SCENARIOS: &str =
    "core,1\nhouse,2024-01-01,2,3\nmarket,MKT\ninstr,SHR,security,MKT,1,1,0\nlimit,SHR,1,1\n\
    scenario,A\npath,A,SHR,8,8,2,2\nscenario,B\npath,B,SHR,3,3,6,6\nposition,SHR,1\n\
    cash,3,-10\nend\n";

/// Four ninths are sold on day 1 and five on day 2, which loses 48 ninths in both scenarios.
pub const TWO_SCENARIOS_CLOSING: &str =
    "cert,1\ncloses,9\namount,SHR,position,1,4\namount,SHR,position,2,5\nloss,48\nmargin,48\n\
    weights,3\nscenario,A,3,1\nscenario,B,3,2\nfull,SHR,position,-14\nend\n";

/// The price falls and recovers.
pub const DIP: &str =
    "core,1\nhouse,2024-01-01,2,3\nmarket,MKT\ninstr,IND,future,MKT,1,1,1\nlimit,IND,10,10\n\
    scenario,DIP\npath,DIP,IND,100,90,105,105\nposition,IND,20\nend\n";

/// Numbers of 39 digits.
pub const SWING: &str =
    "core,1\nhouse,2024-01-01,2,3\nmarket,MKT\ninstr,IND,future,MKT,1,1,1\nlimit,IND,0,10\n\
    scenario,SWING\npath,SWING,IND,0,-1000000000000,1000000000000,0\nposition,IND,10\nend\n";

/// A book of five instruments with a pool, a holiday and four scenarios.
pub const BOOK: &str = "core,1\nhouse,2024-04-29,5,7\nmarket,BR\nmarket,US\nholiday,BR,2024-05-01\n\
    instr,IDX1,future,BR,1,1,1\ninstr,IDX2,future,US,5,1,1\ninstr,RATE,future,BR,10,1,1\n\
    instr,SHARE,security,BR,1,1,2\ninstr,BOND,security,BR,1,2,1\n\
    limit,IDX1,100,100,100,100,100\nlimit,IDX2,20,20,20,20,20\nlimit,RATE,50,50,50,50,50\n\
    limit,SHARE,200,200,200,200,200\nlimit,BOND,30,30,30,30,30\npool,EQ,250\n\
    member,EQ,IDX1,1\nmember,EQ,SHARE,1\nscenario,CRASH\n\
    path,CRASH,IDX1,1200,1150,1150,1100,1080,1070,1070,1070\n\
    path,CRASH,IDX2,500,490,485,480,478,476,476,476\n\
    path,CRASH,RATE,90,91,91,92,93,94,94,94\npath,CRASH,SHARE,30,28,28,26,25,24,24,24\n\
    path,CRASH,BOND,100,99,99,98,97,96,96,96\nscenario,RALLY\n\
    path,RALLY,IDX1,1200,1220,1220,1240,1250,1260,1260,1260\n\
    path,RALLY,IDX2,500,510,515,520,525,530,530,530\n\
    path,RALLY,RATE,90,89,89,88,88,87,87,87\npath,RALLY,SHARE,30,31,31,32,32,33,33,33\n\
    path,RALLY,BOND,100,100,100,100,100,100,100,100\nscenario,TWIST\n\
    path,TWIST,IDX1,1200,1180,1180,1170,1160,1150,1150,1150\n\
    path,TWIST,IDX2,500,505,510,515,515,515,515,515\n\
    path,TWIST,RATE,90,92,92,93,93,93,93,93\npath,TWIST,SHARE,30,29,29,28,28,27,27,27\n\
    path,TWIST,BOND,100,98,98,97,96,95,95,95\nscenario,FLAT\n\
    path,FLAT,IDX1,1200,1200,1200,1200,1200,1200,1200,1200\n\
    path,FLAT,IDX2,500,500,500,500,500,500,500,500\npath,FLAT,RATE,90,90,90,90,90,90,90,90\n\
    path,FLAT,SHARE,30,30,30,30,30,30,30,30\n\
    path,FLAT,BOND,100,100,100,100,100,100,100,100\nposition,IDX1,300\nposition,IDX2,-40\n\
    position,RATE,-100\nposition,SHARE,400\ncollateral,BOND,50\ncash,0,1000\ncash,7,-8000\n\
    end\n";
